// Texts, and the tokens that a second program finds in them, which was written from the definitions in Python. A line is the
// tokens, each with its two ends, and the place where they stop; then behind `|` the text. A letter is a kind, by its place in the
// order of all kinds: `A` for the first to `Z`, then `a` to `e`. ␤ stands for a line feed and ␍ for a carriage return.

/// Words, marks, comments and strings, and what is none of them.
pub fn token_lines() -> &'static str {
    "\
A@0-9 B@10-16 C@17-25 D@26-28 E@29-33 F@34-37 37|namespace entity external in type Set
G@0-9 H@10-19 I@20-26 J@27-35 K@36-43 L@44-48 M@49-53 53|appliesTo principal action resource context tags enum
N@0-10 N@11-15 N@16-22 N@23-27 N@28-32 N@33-40 40|attributes Long String Bool true __cedar
N@0-7 N@8-14 N@15-21 N@22-24 N@25-29 N@30-33 N@34-35 N@36-37 N@38-41 N@42-45 N@46-51 N@52-55 55|entitys Entity ENTITY en tity ins i n set SET enum1 _in
N@0-1 N@2-4 N@5-7 N@8-11 N@12-14 N@15-16 16|_ __ a1 A_1 z9 Z
0|
P@0-1 Q@2-3 R@4-5 S@6-7 T@8-10 U@11-12 V@13-14 W@15-16 X@17-18 Y@19-20 Z@21-22 a@23-24 b@25-26 c@27-28 d@29-30 30|@ , ; : :: ( ) { } [ ] < > ? =
P@0-1 Q@1-2 R@2-3 T@3-5 S@5-6 U@6-7 V@7-8 W@8-9 X@9-10 Y@10-11 Z@11-12 a@12-13 b@13-14 c@14-15 d@15-16 16|@,;:::(){}[]<>?=
T@0-2 2|::
T@0-2 T@2-4 4|::::
T@0-2 S@2-3 3|:::
S@0-1 S@2-3 3|: :
T@0-2 T@2-4 S@4-5 5|:::::
N@0-1 T@1-3 N@3-4 4|a::b
N@0-1 S@1-2 N@2-3 3|a:b
N@0-1 S@1-2 S@3-4 N@4-5 5|a: :b
N@0-1 T@1-3 S@3-4 N@4-5 5|a:::b
D@0-2 T@2-4 D@4-6 6|in::in
F@0-3 a@3-4 N@4-8 b@8-9 9|Set<Long>
W@0-1 N@1-2 c@2-3 S@3-4 N@4-5 X@5-6 6|{x?:T}
d@0-1 d@1-2 W@2-3 X@3-4 d@4-5 5|=={}=
N@0-1 P@1-2 N@2-3 Q@3-4 N@4-5 R@5-6 N@6-7 7|a@b,c;d
0|1a
N@0-1 1|a-b
N@0-1 1|a.b
0|\u{e9}
N@0-1 1|a\u{e9}
N@0-1 N@2-3 4|a b \u{e9} c
0|#
N@0-1 1|a$
0|`
0|~a
0|+
0|!
0|%
0|^
0|&
0|*
0||
0|'a'
N@0-1 1|a\\b
0|0
N@0-1 1|a\u{0}b
0|\u{7f}
4|// x
N@5-6 6|// x␤y
N@5-6 6|// x␍y
N@6-7 7|// x␍␤y
2|//
N@0-1 4|a//b
N@0-1 N@5-6 6|a//b␤c
0|/
N@0-1 1|a/
N@0-1 2|a / b
0|/ /
3|///
6|////x␤/
N@7-8 8|//\u{2028}x␤y
5|//\u{85}x
N@5-6 6|// \"␤a
O@0-4 4|\"//\"
N@0-1 O@5-8 8|a//\"␤\"b\"
5|//\u{e9}␤\u{e9}
0|/*a*/
11|//a␤//b␍//c
O@0-3 3|\"a\"
O@0-2 2|\"\"
O@0-3 O@4-7 7|\"a\" \"b\"
O@0-3 O@3-6 6|\"a\"\"b\"
O@0-5 5|\"a␤b\"
O@0-5 5|\"a␍b\"
O@0-6 6|\"a\u{9}b\u{0}\"
0|\"\\␤\"
0|\"a\\␤b\"
O@0-4 4|\"\\␍\"
O@0-6 N@7-8 8|\"a\\␍b\" c
O@0-4 4|\"\\\"\"
O@0-4 4|\"\\\\\"
O@0-6 6|\"\\\\\\\"\"
0|\"\\
0|\"\\\"
0|\"
0|\"a
N@0-1 2|a \"b
O@0-4 5|\"\\\\\" \"
O@0-4 4|\"\u{e9}\"
O@0-5 5|\"\\\u{e9}\"
O@0-6 N@7-8 8|\"\\\u{2028}\" x
O@0-4 4|\"\\q\"
O@0-3 3|\"'\"
O@0-3 X@4-5 5|\"{\" }
N@0-1 O@1-4 N@4-5 5|x\"y\"z
O@0-10 10|\"\\x80\\u{}\"
O@0-7 7|\"a\\\\␤b\"
O@0-6 6|\"\u{1f600}\"
"
}

/// Each character that is a blank, and some that are none.
pub fn blank_lines() -> &'static str {
    "\
N@0-1 N@2-3 3|a\u{9}b
N@0-1 N@2-3 3|a␤b
N@0-1 N@2-3 3|a\u{b}b
N@0-1 N@2-3 3|a\u{c}b
N@0-1 N@2-3 3|a␍b
N@0-1 N@2-3 3|a b
N@0-1 N@3-4 4|a\u{85}b
N@0-1 N@3-4 4|a\u{a0}b
N@0-1 N@4-5 5|a\u{1680}b
N@0-1 N@4-5 5|a\u{2000}b
N@0-1 N@4-5 5|a\u{2001}b
N@0-1 N@4-5 5|a\u{2002}b
N@0-1 N@4-5 5|a\u{2003}b
N@0-1 N@4-5 5|a\u{2004}b
N@0-1 N@4-5 5|a\u{2005}b
N@0-1 N@4-5 5|a\u{2006}b
N@0-1 N@4-5 5|a\u{2007}b
N@0-1 N@4-5 5|a\u{2008}b
N@0-1 N@4-5 5|a\u{2009}b
N@0-1 N@4-5 5|a\u{200a}b
N@0-1 N@4-5 5|a\u{2028}b
N@0-1 N@4-5 5|a\u{2029}b
N@0-1 N@4-5 5|a\u{202f}b
N@0-1 N@4-5 5|a\u{205f}b
N@0-1 N@4-5 5|a\u{3000}b
N@61-62 123|\u{9}␤\u{b}\u{c}␍ \u{85}\u{a0}\u{1680}\u{2000}\u{2001}\u{2002}\u{2003}\u{2004}\u{2005}\u{2006}\u{2007}\u{2008}\u{2009}\u{200a}\u{2028}\u{2029}\u{202f}\u{205f}\u{3000}a\u{9}␤\u{b}\u{c}␍ \u{85}\u{a0}\u{1680}\u{2000}\u{2001}\u{2002}\u{2003}\u{2004}\u{2005}\u{2006}\u{2007}\u{2008}\u{2009}\u{200a}\u{2028}\u{2029}\u{202f}\u{205f}\u{3000}
N@0-1 1|a\u{200b}b
N@0-1 1|a\u{feff}b
N@0-1 1|a\u{180e}b
N@0-1 1|a\u{2060}b
N@0-1 1|a\u{1c}b
N@0-1 1|a\u{1f}b
N@0-1 1|a\u{84}b
N@0-1 1|a\u{86}b
N@0-1 1|a\u{9f}b
N@0-1 1|a\u{a1}b
N@0-1 1|a\u{200c}b
N@0-1 1|a\u{205e}b
N@0-1 1|a\u{2027}b
N@0-1 1|a\u{3001}b
0|\u{feff}entity A;
"
}
