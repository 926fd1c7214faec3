// Texts, and what a second program says of their tokens, which was written from the definitions in Python. A line is the answer,
// then behind `|` the text: `none`, or `invalid` and the place, or `token` with its two ends and the kinds expected, or `end` with
// the place and the kinds expected. A letter is a kind, by its place in the order of all kinds: `A` for the first to `Z`, then `a`
// to `e`.

/// The lines of the table.
pub fn sentence_lines() -> &'static str {
    "\
none|
end 11 TW|namespace N
end 13 ABCEFGHIJKLMNZ|entity A in [
end 10 ABCEFGHIJKLMNOPX|entity A {
end 12 RTa|type T = Set
token 9 10 DGQR|action a { };
token 14 15 ABCEIPe|namespace N {};
none|entity A;
invalid 7|entity é;
invalid 0|é entity
invalid 10|entity A; \\
invalid 12|entity A in é entity
invalid 14|entity entity é
end 8 DLMQRWd|entity A // rest
invalid 9|entity A /* c */
none|entity A enum [];
end 18 QZ|entity A enum [\"x\"
none|entity A = { a: Long };
token 35 37 ABCEFGHIJKLMNW|entity A = { a?: Set<Long>, \"b c\": ::B };
end 19 ABCEFGHIJKLMN|type T = Long; type
none|@doc(\"x\") entity A;
none|@doc entity A, B in [C] tags Set<D>;
token 5 6 O|@doc(x) entity A;
none|action \"a b\" appliesTo { principal: A, resource: [B] };
token 34 43 QTX|action a appliesTo { principal: A principal
none|action a in [Action::\"x\"] appliesTo { context: { x: Long } };
none|namespace N { entity A; }
token 29 30 ABCEIPe|namespace N::M { entity A; } }
token 12 14 ABCEFGHIJKLMNY|entity A in in;
token 7 9 ABCEFGHIJKLMN|entity in;
invalid 9|entity A \"unclosed
invalid 10|entity A; 1
token 12 14 ABCEFGHIJKLMN|type T = a::in;
none| entity　A ;
token 9 10 ABCEIPe|entity A;;
none|external entity A;
token 9 10 BI|external A;"
}
