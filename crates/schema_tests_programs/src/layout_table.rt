// Runs of the formatter. A second program, which was written from the definitions in Python, answered them. ␤ stands for a line feed.

/// The words, the code, the output, the error output and the bytes of the input, with `‖` between them.
pub fn layout_lines() -> &'static str {
    "\
layout‖0‖‖‖
layout‖0‖entity A, B; //x␤‖‖entity A,B;//x
layout‖1‖‖error: unexpected end of input␤‖entity A
layout‖5‖‖error: the input is not UTF-8␤‖\u{ff}
‖2‖‖usage: schema_layout layout␤‖entity A;
layout layout‖2‖‖usage: schema_layout layout␤‖entity A;
format‖2‖‖usage: schema_layout layout␤‖
layout‖0‖@doc(\"x\")␤namespace N {␤  entity A, B in [C, D] = {␤    x: Long,␤    \"y\"?: Set<{␤      z: Long␤    }>␤  } tags A; //t␤  //own␤  action a;␤}␤‖‖@doc(\"x\") namespace N{entity A,B in [C,D]={x:Long,\"y\"?:Set<{z:Long}>}tags A;//t␤//own␤action a;}
layout‖0‖entity A;␤// own␤entity B;␤‖‖entity A;\r␤\r␤// own\rentity B;
layout‖1‖‖error: invalid token␤‖entity A ~;
layout‖1‖‖error: duplicate annotations: `a`␤‖@a @a entity A;
"
}
