//! The calls, by their names in C. Each answers as a run of a program on the same words and the same input would.
//!
//! The status is the exit code of such a run: 0 where it is done, 1 where the input is refused, 2 where the words ask
//! for no command, 5 where the input is not UTF-8, 6 where it is longer than 16,777,216 bytes, and 7 where memory is
//! out. It is 8 where the input is nested too deep, which only these calls refuse. Under 7 and 8 the answer stays as it
//! was.
ghost use Rattle.std.specs.Prelude.{◌≡◌, ◌≢◌, ◌↔◌, ◌⊎◌, [], ◌∷◌, IfOk, MatchOption, codes, map};
ghost use Rattle.std.specs.List.{All};
ghost use Rattle.std.specs.Str.{IsUtf8};
ghost use Rattle.std.specs.String.{string_bytes};
ghost use Rattle.cedar_runs.specs.Reports.{report_of};
ghost use Rattle.cedar_nesting.specs.Nesting.{IsTooDeep};
ghost use Rattle.cedar_schema_core.specs.Plan.{IsPlan};
ghost use Rattle.schema_layout.specs.Plans.{IsLayoutPlan};
ghost use Rattle.schema_assist.specs.Plans.{IsPlaceReport};
ghost use Rattle.schema_inclusion.specs.Plans.{IsTextsReport};
ghost use Rattle.schema_same.specs.Replies.{IsSameReport};
ghost use Rattle.schema_text_reports.specs.ReportReplies.{IsReportsPlan};
ghost use Rattle.cedar_schema_c.specs.Answers.{IsHanded, IsTwoInputsReport, IsWordsPlan};
ghost use Rattle.cedar_schema_c.specs.Answers.{memory_code, deep_code, words_of};

use crate::answer::{Answer, answer_of};
use crate::replies::reply_of_words;
use crate::two_texts::{AdmitsAll, AreSame, TwoTexts, reply_of_two};
use cedar_nesting::is_too_deep;
use cedar_runs::{Program, Reply, Status};
use cedar_schema_core::Command;
use schema_assist::reply_at;
use schema_layout::LayOut;
use schema_text_reports::reply_of_reports;
use std::alloc::{AllocError, Global};

/// The status of a call where memory is out.
pub const MEMORY: u8 = 7;

/// The status of a call whose input is nested too deep.
pub const TOO_DEEP: u8 = 8;

const VERSION: u32 = 100;

/// A word of a command.
#[repr(C)]
#[derive(Clone, Copy)]
pub struct Word<'a> {
    pub text: &'a [u8],
}

// The words, of which there is one.
fn one_word(alloc: Global, word: &str) -> Result<Vec<String>, AllocError>
    ensures { IfOk result (λ words. map string_bytes words.items ≡ word.now ∷ []) }
{
    let mut words = Vec::new(alloc);
    words.push(String::from_str(alloc, word)?)?;
    Ok(words)
}

// The word as a text, where it is UTF-8.
fn text_of(alloc: Global, word: &Word<'_>) -> Result<Option<String>, AllocError>
    ensures { IfOk result (λ found. MatchOption found (IsUtf8 word.now.text.now → ⊥)
        (λ text. (string_bytes text ≡ word.now.text.now) × IsUtf8 word.now.text.now)) }
{
    match str::from_utf8(word.text) {
        Ok(text) => Ok(Some(String::from_str(alloc, text)?)),
        Err(_) => Ok(None),
    }
}

// The words as texts, where each is UTF-8.
fn texts_of(alloc: Global, words: &[Word<'_>]) -> Result<Option<Vec<String>>, AllocError>
    ensures { IfOk result (λ found. MatchOption found (All IsUtf8 (words_of words.now) → ⊥)
        (λ texts. All IsUtf8 (words_of words.now) × (map string_bytes texts.items ≡ words_of words.now))) }
{
    let mut texts = Vec::new(alloc);
    for word in words {
        match text_of(alloc, word)? {
            Some(text) => texts.push(text)?,
            None => return Ok(None),
        }
    }
    Ok(Some(texts))
}

// Fills the answer with the reply, under the code of its status.
fn hand_out(alloc: Global, reply: &Reply, answer: &mut Answer) -> u8
    ensures handed { result ≢ memory_code → IsHanded (λ report. report ≡ report_of reply.now) result answer.new }
    ensures kept { result ≡ memory_code → answer.new ≡ answer.old }
    ensures code { result ≢ deep_code }
{
    if reply.status == Status::Memory {
        return MEMORY;
    }
    let Ok(filled) = answer_of(alloc, reply) else {
        return MEMORY;
    };
    *answer = filled;
    reply.status.code()
}

// What a program answers to one word and the bytes.
fn answer_word<P: Program>(alloc: Global, word: &str, bytes: &[u8], answer: &mut Answer) -> u8
    ensures planned { result ≢ memory_code → result ≢ deep_code
        → IsHanded (P.planned (word.now ∷ []) bytes.now) result answer.new }
    ensures deep { result ≡ deep_code ↔ IsTooDeep bytes.now }
    ensures kept { (result ≡ memory_code) ⊎ (result ≡ deep_code) → answer.new ≡ answer.old }
{
    if is_too_deep(bytes) {
        return TOO_DEEP;
    }
    let Ok(words) = one_word(alloc, word) else {
        return MEMORY;
    };
    match reply_of_words::<P>(alloc, &words, bytes) {
        Ok(reply) => hand_out(alloc, &reply, answer),
        Err(_) => MEMORY,
    }
}

// What a comparison answers to two inputs.
fn answer_two<T: TwoTexts>(alloc: Global, first: &[u8], second: &[u8], answer: &mut Answer) -> u8
    ensures planned { result ≢ memory_code → result ≢ deep_code
        → IsHanded (IsTwoInputsReport T.answers first.now second.now) result answer.new }
    ensures deep { result ≡ deep_code ↔ (IsTooDeep first.now ⊎ IsTooDeep second.now) }
    ensures kept { (result ≡ memory_code) ⊎ (result ≡ deep_code) → answer.new ≡ answer.old }
{
    if is_too_deep(first) || is_too_deep(second) {
        return TOO_DEEP;
    }
    match reply_of_two::<T>(alloc, first, second) {
        Ok(reply) => hand_out(alloc, &reply, answer),
        Err(_) => MEMORY,
    }
}

/// The canonical text of what the schema text means.
#[unsafe(no_mangle)]
pub extern "C" fn cedar_schema_recover(alloc: Global, bytes: &[u8], answer: &mut Answer) -> u8
    ensures planned { result ≢ memory_code → result ≢ deep_code
        → IsHanded (IsPlan (codes "recover" ∷ []) bytes.now) result answer.new }
    ensures deep { result ≡ deep_code ↔ IsTooDeep bytes.now }
    ensures kept { (result ≡ memory_code) ⊎ (result ≡ deep_code) → answer.new ≡ answer.old }
{
    answer_word::<Command>(alloc, "recover", bytes, answer)
}

/// How many entity types and actions the schema text declares.
#[unsafe(no_mangle)]
pub extern "C" fn cedar_schema_check(alloc: Global, bytes: &[u8], answer: &mut Answer) -> u8
    ensures planned { result ≢ memory_code → result ≢ deep_code
        → IsHanded (IsPlan (codes "check" ∷ []) bytes.now) result answer.new }
    ensures deep { result ≡ deep_code ↔ IsTooDeep bytes.now }
    ensures kept { (result ≡ memory_code) ⊎ (result ≡ deep_code) → answer.new ≡ answer.old }
{
    answer_word::<Command>(alloc, "check", bytes, answer)
}

/// The JSON form of the schema text.
#[unsafe(no_mangle)]
pub extern "C" fn cedar_schema_to_json(alloc: Global, bytes: &[u8], answer: &mut Answer) -> u8
    ensures planned { result ≢ memory_code → result ≢ deep_code
        → IsHanded (IsPlan (codes "to-json" ∷ []) bytes.now) result answer.new }
    ensures deep { result ≡ deep_code ↔ IsTooDeep bytes.now }
    ensures kept { (result ≡ memory_code) ⊎ (result ≡ deep_code) → answer.new ≡ answer.old }
{
    answer_word::<Command>(alloc, "to-json", bytes, answer)
}

/// The canonical text of what the JSON schema means.
#[unsafe(no_mangle)]
pub extern "C" fn cedar_schema_from_json(alloc: Global, bytes: &[u8], answer: &mut Answer) -> u8
    ensures planned { result ≢ memory_code → result ≢ deep_code
        → IsHanded (IsPlan (codes "from-json" ∷ []) bytes.now) result answer.new }
    ensures deep { result ≡ deep_code ↔ IsTooDeep bytes.now }
    ensures kept { (result ≡ memory_code) ⊎ (result ≡ deep_code) → answer.new ≡ answer.old }
{
    answer_word::<Command>(alloc, "from-json", bytes, answer)
}

/// The canonical text of what the schema in the deprecated form of JSON means.
#[unsafe(no_mangle)]
pub extern "C" fn cedar_schema_from_deprecated(
    alloc: Global,
    bytes: &[u8],
    answer: &mut Answer,
) -> u8
    ensures planned { result ≢ memory_code → result ≢ deep_code
        → IsHanded (IsPlan (codes "from-deprecated" ∷ []) bytes.now) result answer.new }
    ensures deep { result ≡ deep_code ↔ IsTooDeep bytes.now }
    ensures kept { (result ≡ memory_code) ⊎ (result ≡ deep_code) → answer.new ≡ answer.old }
{
    answer_word::<Command>(alloc, "from-deprecated", bytes, answer)
}

/// The schema text laid out anew, with its comments.
#[unsafe(no_mangle)]
pub extern "C" fn cedar_schema_format(alloc: Global, bytes: &[u8], answer: &mut Answer) -> u8
    ensures planned { result ≢ memory_code → result ≢ deep_code
        → IsHanded (IsLayoutPlan (codes "layout" ∷ []) bytes.now) result answer.new }
    ensures deep { result ≡ deep_code ↔ IsTooDeep bytes.now }
    ensures kept { (result ≡ memory_code) ⊎ (result ≡ deep_code) → answer.new ≡ answer.old }
{
    answer_word::<LayOut>(alloc, "layout", bytes, answer)
}

/// What may stand at this place of the schema text, a byte offset: a line for each kind of token, and one for each name
/// that the text itself declares or Cedar has.
#[unsafe(no_mangle)]
pub extern "C" fn cedar_schema_complete(
    alloc: Global,
    bytes: &[u8],
    place: usize,
    answer: &mut Answer,
) -> u8
    ensures planned { result ≢ memory_code → result ≢ deep_code
        → IsHanded (IsPlaceReport place bytes.now) result answer.new }
    ensures deep { result ≡ deep_code ↔ IsTooDeep bytes.now }
    ensures kept { (result ≡ memory_code) ⊎ (result ≡ deep_code) → answer.new ≡ answer.old }
{
    if is_too_deep(bytes) {
        return TOO_DEEP;
    }
    match reply_at(alloc, place, bytes) {
        Ok(reply) => hand_out(alloc, &reply, answer),
        Err(_) => MEMORY,
    }
}

/// What is reported of the schema text, its warnings or its faults: a line of JSON for each, with the bytes, the lines
/// and the columns of its places.
#[unsafe(no_mangle)]
pub extern "C" fn cedar_schema_report(alloc: Global, bytes: &[u8], answer: &mut Answer) -> u8
    ensures planned { result ≢ memory_code → result ≢ deep_code
        → IsHanded (IsReportsPlan bytes.now) result answer.new }
    ensures deep { result ≡ deep_code ↔ IsTooDeep bytes.now }
    ensures kept { (result ≡ memory_code) ⊎ (result ≡ deep_code) → answer.new ≡ answer.old }
{
    if is_too_deep(bytes) {
        return TOO_DEEP;
    }
    match reply_of_reports(alloc, bytes) {
        Ok(reply) => hand_out(alloc, &reply, answer),
        Err(_) => MEMORY,
    }
}

/// Whether two schema texts have one meaning: `same` or `different`.
#[unsafe(no_mangle)]
pub extern "C" fn cedar_schema_same(
    alloc: Global,
    first: &[u8],
    second: &[u8],
    answer: &mut Answer,
) -> u8
    ensures planned { result ≢ memory_code → result ≢ deep_code
        → IsHanded (IsTwoInputsReport IsSameReport first.now second.now) result answer.new }
    ensures deep { result ≡ deep_code ↔ (IsTooDeep first.now ⊎ IsTooDeep second.now) }
    ensures kept { (result ≡ memory_code) ⊎ (result ≡ deep_code) → answer.new ≡ answer.old }
{
    answer_two::<AreSame>(alloc, first, second, answer)
}

/// Whether a new schema text admits all that an old one does: `included`, or what the first value is about that it does
/// not admit.
#[unsafe(no_mangle)]
pub extern "C" fn cedar_schema_include(
    alloc: Global,
    old_bytes: &[u8],
    new_bytes: &[u8],
    answer: &mut Answer,
) -> u8
    ensures planned { result ≢ memory_code → result ≢ deep_code
        → IsHanded (IsTwoInputsReport IsTextsReport old_bytes.now new_bytes.now) result answer.new }
    ensures deep { result ≡ deep_code ↔ (IsTooDeep old_bytes.now ⊎ IsTooDeep new_bytes.now) }
    ensures kept { (result ≡ memory_code) ⊎ (result ≡ deep_code) → answer.new ≡ answer.old }
{
    answer_two::<AdmitsAll>(alloc, old_bytes, new_bytes, answer)
}

/// What the program `cedar_schema_tool` answers to these words and the input.
#[unsafe(no_mangle)]
pub extern "C" fn cedar_schema_run(
    alloc: Global,
    words: &[Word<'_>],
    bytes: &[u8],
    answer: &mut Answer,
) -> u8
    ensures planned { result ≢ memory_code → result ≢ deep_code
        → IsHanded (IsWordsPlan (words_of words.now) bytes.now) result answer.new }
    ensures deep { result ≡ deep_code ↔ IsTooDeep bytes.now }
    ensures kept { (result ≡ memory_code) ⊎ (result ≡ deep_code) → answer.new ≡ answer.old }
{
    if is_too_deep(bytes) {
        return TOO_DEEP;
    }
    match reply_of_run(alloc, words, bytes) {
        Ok(reply) => hand_out(alloc, &reply, answer),
        Err(_) => MEMORY,
    }
}

// The reply of `cedar_schema_tool` to these words and the input.
fn reply_of_run(alloc: Global, words: &[Word<'_>], bytes: &[u8]) -> Result<Reply, AllocError>
    ensures { IfOk result (λ reply. IsWordsPlan (words_of words.now) bytes.now (report_of reply)) }
{
    match texts_of(alloc, words)? {
        Some(texts) => reply_of_words::<Command>(alloc, &texts, bytes),
        None => Command::usage_reply(alloc),
    }
}

/// The version of this library: 10,000 times the major number, 100 times the minor one, and the patch.
#[unsafe(no_mangle)]
pub extern "C" fn cedar_schema_version() -> u32
    ensures { result ≡ 100 }
{
    VERSION
}
