//! What a call hands out.
ghost use Rattle.std.specs.Prelude.{◌≡◌, IfOk};
ghost use Rattle.std.specs.Str.{encode_utf8_all};
ghost use Rattle.cedar_runs.specs.Reports.{report_of};
ghost use Rattle.cedar_schema_c.specs.Answers.{outputs_of};

use cedar_data::Text;
use cedar_runs::Reply;
use std::alloc::{AllocError, Global};

/// What a call writes: two blocks that stay until the caller frees them. An output of no bytes has no block.
#[repr(C)]
#[derive(Drop)]
pub struct Answer {
    /// The output.
    pub out: &'static [u8],
    /// The error output: warnings, or why the input is refused.
    pub err: &'static [u8],
}

// A copy of the text's bytes.
fn bytes_of(alloc: Global, text: &Text) -> Result<Vec<u8>, AllocError>
    ensures { IfOk result (λ bytes. bytes.items ≡ encode_utf8_all text.now) }
{
    Vec::from_slice(alloc, text.as_str().as_bytes())
}

// The bytes as a block that is never freed here. No bytes take no block.
fn block_of(bytes: Vec<u8>) -> &'static [u8]
    ensures { result.now ≡ bytes.items }
{
    if bytes.is_empty() {
        return &[];
    }
    bytes.leak()
}

/// Both outputs of the reply as blocks. Where memory is out there is none of them.
pub fn answer_of(alloc: Global, reply: &Reply) -> Result<Answer, AllocError>
    ensures { IfOk result (λ answer. outputs_of answer ≡ ((report_of reply.now).out, (report_of reply.now).err)) }
{
    let out = bytes_of(alloc, &reply.out)?;
    let err = bytes_of(alloc, &reply.err)?;
    Ok(Answer {
        out: block_of(out),
        err: block_of(err),
    })
}
