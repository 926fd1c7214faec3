// What a second program says of strings, which was written from the definitions in Python. A line is the answer, then behind `|`
// what was asked. ␤ stands for a line feed and ␍ for a carriage return.

/// What stands between the quotes of a string: behind `=` what it stands for, or where its first bad backslash is.
pub fn value_lines() -> &'static str {
    "\
=|
=a|a
=a b|a b
=\u{e9}\u{2028}|\u{e9}\u{2028}
=\"|\"
='|'
=␤␍\u{9}|␤␍\u{9}
=␤|\\n
=␍|\\r
=\u{9}|\\t
=\\|\\\\
=\u{0}|\\0
='|\\'
=\"|\\\"
=␤␍\u{9}\\\u{0}'\"|\\n\\r\\t\\\\\\0\\'\\\"
=a␤b\u{9}c|a\\nb\\tc
=\\n|\\\\n
=\\␤|\\\\\\n
=\u{0}|\\x00
=A|\\x41
=\u{7f}|\\x7f
=\u{7f}|\\x7F
bad 0|\\x80
bad 0|\\xff
bad 0|\\x7
bad 0|\\x
bad 0|\\xg1
bad 0|\\x1g
bad 0|\\x4_1
bad 0|\\X41
=\u{0}|\\u{0}
=␤|\\u{A}
=␤|\\u{a}
=A|\\u{41}
=\u{e9}|\\u{e9}
=\u{10ffff}|\\u{1_0_FFFF}
=\u{10ffff}|\\u{10ffff}
=\u{10ffff}|\\u{10FFFF}
bad 0|\\u{110000}
=\u{d7ff}|\\u{D7FF}
bad 0|\\u{D800}
bad 0|\\u{DFFF}
=\u{e000}|\\u{E000}
bad 0|\\u{ffffff}
bad 0|\\u{}
bad 0|\\u{_}
bad 0|\\u{_1}
=\u{1}|\\u{1_}
=\u{1}|\\u{1_____}
=\u{12}|\\u{1__________2}
=\u{1}|\\u{000001}
bad 0|\\u{0000001}
bad 0|\\u{1_2_3_4_5_6}
=A|\\u{0_0_0_0_4_1}
bad 0|\\u{0_0_0_0_0_4_1}
bad 0|\\u{g}
bad 0|\\u{1g}
bad 0|\\u{1
bad 0|\\u{
bad 0|\\u
bad 0|\\u1
bad 0|\\u{1 }
bad 0|\\u{ 1}
bad 0|\\u{-1}
bad 0|\\U{41}
bad 0|\\u{1\u{e9}}
bad 0|\\q
bad 0|\\a
bad 0|\\N
bad 0|\\1
bad 0|\\\u{20}
bad 0|\\
bad 1|a\\
bad 2|\u{e9}\\q
bad 0|\\\u{e9}
bad 0|\\␍
bad 3|a\\n\\q\\z
bad 8|ab\\u{41}\\u{}\\n
bad 4|\\x41\\x80
bad 2|\\\\\\q
bad 0|\\/
"
}

/// A text, written as a string.
pub fn quoted_lines() -> &'static str {
    "\
\"\"|
\"a b\"|a b
\"\\\"\"|\"
\"\\'\"|'
\"\\\\\"|\\
\"\u{80}\"|\u{80}
\"\u{9f}\"|\u{9f}
\"\u{e9}\"|\u{e9}
\"\u{2028}\"|\u{2028}
\"\u{2029}\"|\u{2029}
\"\u{feff}\"|\u{feff}
\"\u{1f600}\"|\u{1f600}
\"\u{a0}\"|\u{a0}
\"\\\\n\"|\\n
\"a\\\"b\\'c\\\\d\\te\"|a\"b'c\\d\u{9}e
\"\u{e9}\\n\u{e9}\"|\u{e9}␤\u{e9}
\"{}/$`~\"|{}/$`~
\"\\0\"|\u{0}
\"\\u{1}\"|\u{1}
\"\\u{2}\"|\u{2}
\"\\u{3}\"|\u{3}
\"\\u{4}\"|\u{4}
\"\\u{5}\"|\u{5}
\"\\u{6}\"|\u{6}
\"\\u{7}\"|\u{7}
\"\\u{8}\"|\u{8}
\"\\t\"|\u{9}
\"\\n\"|␤
\"\\u{b}\"|\u{b}
\"\\u{c}\"|\u{c}
\"\\r\"|␍
\"\\u{e}\"|\u{e}
\"\\u{f}\"|\u{f}
\"\\u{10}\"|\u{10}
\"\\u{11}\"|\u{11}
\"\\u{12}\"|\u{12}
\"\\u{13}\"|\u{13}
\"\\u{14}\"|\u{14}
\"\\u{15}\"|\u{15}
\"\\u{16}\"|\u{16}
\"\\u{17}\"|\u{17}
\"\\u{18}\"|\u{18}
\"\\u{19}\"|\u{19}
\"\\u{1a}\"|\u{1a}
\"\\u{1b}\"|\u{1b}
\"\\u{1c}\"|\u{1c}
\"\\u{1d}\"|\u{1d}
\"\\u{1e}\"|\u{1e}
\"\\u{1f}\"|\u{1f}
\"\\u{7f}\"|\u{7f}
\"\\0\\u{1}\\u{2}\\u{3}\\u{4}\\u{5}\\u{6}\\u{7}\\u{8}\\t\\n\\u{b}\\u{c}\\r\\u{e}\\u{f}\\u{10}\\u{11}\\u{12}\\u{13}\\u{14}\\u{15}\\u{16}\\u{17}\\u{18}\\u{19}\\u{1a}\\u{1b}\\u{1c}\\u{1d}\\u{1e}\\u{1f}\\u{7f}\"|\u{0}\u{1}\u{2}\u{3}\u{4}\u{5}\u{6}\u{7}\u{8}\u{9}␤\u{b}\u{c}␍\u{e}\u{f}\u{10}\u{11}\u{12}\u{13}\u{14}\u{15}\u{16}\u{17}\u{18}\u{19}\u{1a}\u{1b}\u{1c}\u{1d}\u{1e}\u{1f}\u{7f}
"
}
