// Texts that are refused, and what a second program says of them, which was written from the definitions in Python: the message,
// in brackets each place that it points to with what it says there, and the advice. A line is the answer, then behind `|` the
// text. ␤ stands for a line feed.

/// The lines of the table.
pub fn message_lines() -> &'static str {
    "\
unexpected end of input [8..8 expected `in`, `tags`, `enum`, `,`, `;`, `{` or `=`]|entity A
unexpected end of input [11..11 expected `::` or `{`]|namespace N
unexpected end of input [13..13 expected identifier or `]`]|entity A in [
unexpected end of input [10..10 expected identifier, string literal, `@` or `}`]|entity A {
unexpected end of input [12..12 expected `;`, `::` or `<`]|type T = Set
unexpected end of input [1..1 expected `in` or identifier]|@
unexpected end of input [13..13 expected identifier or `{`]|type T = Set<
unexpected token `\"x\"` [7..10 expected identifier]|entity \"x\";
unexpected token `{` [9..10 expected `in`, `appliesTo`, `,` or `;`] help: action declarations require `appliesTo` before the `{ ... }` block|action a { };
unexpected token `{` [18..19 expected `in`, `,` or `;`]|external action a {
unexpected token `}` [9..10 expected `in`, `appliesTo`, `,` or `;`]|action a };
unexpected token `;` [14..15 expected `namespace`, `entity`, `external`, `type`, `action`, `@` or end of input] help: namespace declarations are not followed by `;`; try removing this semicolon|namespace N {};
unexpected token `;` [19..20 expected `namespace`, `entity`, `external`, `type`, `action`, `@` or end of input] help: namespace declarations are not followed by `;`; try removing this semicolon|namespace N {}\u{2003}␤ ;
unexpected token `;` [20..21 expected `namespace`, `entity`, `external`, `type`, `action`, `@` or end of input]|namespace N {} // x␤;
unexpected token `;` [21..22 expected `namespace`, `entity`, `external`, `type`, `action`, `@` or end of input] help: namespace declarations are not followed by `;`; try removing this semicolon|namespace N {} // x}␤;
unexpected token `;` [9..10 expected `namespace`, `entity`, `external`, `type`, `action`, `@` or end of input]|entity A;;
unexpected token `;` [15..16 expected `namespace`, `entity`, `external`, `type`, `action`, `@` or end of input] help: namespace declarations are not followed by `;`; try removing this semicolon|namespace N { };
invalid token [9..9]|entity A ~
An empty list was passed [14..16]|entity A enum [];
`is` is a reserved identifier [11..13]|entity A { is: B };
Invalid escape codes [15..20]|entity E enum [\"a\\q\"];
duplicate annotations: `a` [1..2] [4..5]|@a @a(\"x\") entity A;
`like` is a reserved identifier [13..17]|namespace N::like {}
invalid token [0..0]|\u{e9}
unexpected token `}` [10..11 expected `namespace`, `entity`, `external`, `type`, `action`, `@` or end of input]|entity A; }
unexpected token `{` [9..10 expected `in`, `appliesTo`, `,` or `;`] help: action declarations require `appliesTo` before the `{ ... }` block|action a {
invalid token [7..7]|entity \u{e9}
invalid token [14..14]|namespace N {}\u{e9};
unexpected token `}` [15..16 expected `namespace`, `entity`, `external`, `type`, `action`, `@` or end of input]|namespace N {} }␤;
"
}
