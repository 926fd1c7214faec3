// Runs of completion. A second program, which was written from the definitions in Python, answered them. ␤ stands for a line feed.

/// The words, the code, the output, the error output and the bytes of the input, with `‖` between them.
pub fn assist_lines() -> &'static str {
    "\
at 00000024‖0‖kind `namespace`␤kind `entity`␤kind `external`␤kind `type`␤kind `Set`␤kind `appliesTo`␤kind `principal`␤kind `action`␤kind `resource`␤kind `context`␤kind `tags`␤kind `enum`␤kind identifier␤kind `[`␤name Ab␤‖‖entity Ab; entity B in A;
at 27‖0‖kind `namespace`␤kind `entity`␤kind `external`␤kind `type`␤kind `Set`␤kind `appliesTo`␤kind `principal`␤kind `action`␤kind `resource`␤kind `context`␤kind `tags`␤kind `enum`␤kind identifier␤kind string literal␤kind `]`␤name \"é\"␤name a␤‖‖action \"\u{c3}\u{a9}\"; action a in [ ];
at 0‖0‖kind `namespace`␤kind `entity`␤kind `external`␤kind `type`␤kind `action`␤kind `@`␤kind end of input␤‖‖entity A
at 9‖1‖‖error: no such place␤‖entity A
at 8‖1‖‖error: no such place␤‖entity \u{c3}\u{a9}
at 13‖1‖‖error: invalid token␤‖entity A in ~
at 12‖1‖‖error: unexpected token `}`␤‖entity X } A
at 0‖5‖‖error: the input is not UTF-8␤‖\u{ff}
‖2‖‖usage: schema_assist at PLACE␤‖entity A;
at‖2‖‖usage: schema_assist at PLACE␤‖entity A;
by 1‖2‖‖usage: schema_assist at PLACE␤‖entity A;
at 123456789‖2‖‖usage: schema_assist at PLACE␤‖entity A;
at +1‖2‖‖usage: schema_assist at PLACE␤‖entity A;
at 1a‖2‖‖usage: schema_assist at PLACE␤‖entity A;
at 1 2‖2‖‖usage: schema_assist at PLACE␤‖entity A;
"
}
