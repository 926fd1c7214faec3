// What the readers say of a text: nothing where they read it. A line is the answers, with `;` between two, then behind `=>` the
// text. ␤ stands for a line feed and ␍ for a carriage return. The lines were worked out by hand, from the definitions of words
// and names, and a second program that reads names by these definitions gives the same.

/// One answer, of all readers.
pub fn alike_lines() -> &'static str {
    "\
=>A
=>Set
=>_
=>_a1
=>A1
unexpected token `1`=>1
unexpected token `1`=>1a
unexpected token `1`=>A 1
unexpected token `*`=>*1
unexpected token `::`=>::
unexpected end of input=>␤
invalid token=>~
unexpected token `B`=>A B ~
invalid token=>A ~ B
unexpected end of input=>
unexpected end of input=>  \u{20}
the name is not normalized=> A
the name is not normalized=>A\u{20}
the name is not normalized=>A //x
unexpected token `B`=>A//x␤B
the name is not normalized=>//A␍B
unexpected end of input=>//
unexpected token `/`=>/
unexpected token `/`=>/A
unexpected token `/`=>A/
unexpected token `:`=>A: :B
unexpected token `:`=>A:B
unexpected token `::`=>A::::B
unexpected token `::`=>::A
unexpected token `1`=>in 1
invalid token=>in ~
invalid token=>\u{e9}
the name is not normalized=>A\u{a0}
the name is not normalized=>\u{2003}A
invalid token=>A\u{200b}
invalid token=>\"A\"
invalid token=>A\\
invalid token=>#
unexpected token `.`=>A.B
unexpected token `-`=>A-B
unexpected token `,`=>A,B
unexpected token `{`=>{
unexpected token `|`=>a|b
unexpected token `:`=>has:
=>ifx
unexpected token `12`=>12 34
unexpected token `B`=>A//\u{2028}␤B::
the name is not normalized=>A //
invalid token=>%
invalid token=>$a
"
}

/// Two answers: of the readers of words, and of those of names.
pub fn word_and_name_lines() -> &'static str {
    "\
unexpected token `::`;=>A::B
unexpected token `::`;=>A::B::C
unexpected token `::`;the word `in` is reserved=>A::in
unexpected token `::`;the word `in` is reserved=>in::__cedar
unexpected token `::`;unexpected end of input=>A::
unexpected token `::`;invalid token=>A:: ~
unexpected token `::`;the name is not normalized=>A :: B
unexpected token `::`;unexpected token `:`=>A:::B
unexpected token `::`;unexpected end of input=>in::
unexpected token `::`;the word `in` is reserved=>A::in::true
unexpected token `::`;invalid token=>A::\u{e9}
unexpected token `::`;the word `true` is reserved=>true::false
unexpected token `::`;the word `like` is reserved=>like::A::B\u{20}
unexpected token `::`;unexpected token `9`=>A::9b
"
}

/// Five answers: of the readers of any word, an id, an unreserved id, a name and a name without `__cedar`.
pub fn apart_lines() -> &'static str {
    "\
;;the word `__cedar` is reserved;;the word `__cedar` is reserved=>__cedar
unexpected token `::`;unexpected token `::`;unexpected token `::`;;the word `__cedar` is reserved=>__cedar::A
unexpected token `::`;unexpected token `::`;unexpected token `::`;;the word `__cedar` is reserved=>A::__cedar
;the word `in` is reserved;the word `in` is reserved;the word `in` is reserved;the word `in` is reserved=>in
;the word `true` is reserved;the word `true` is reserved;the word `true` is reserved;the word `true` is reserved=>true
unexpected token `::`;unexpected token `::`;unexpected token `::`;the word `in` is reserved;the word `__cedar` is reserved=>__cedar::in
the name is not normalized;the word `in` is reserved;the word `in` is reserved;the word `in` is reserved;the word `in` is reserved=> in
the name is not normalized;the word `in` is reserved;the word `in` is reserved;the word `in` is reserved;the word `in` is reserved=>in\u{20}
the name is not normalized;the name is not normalized;the word `__cedar` is reserved;the name is not normalized;the word `__cedar` is reserved=>__cedar\u{20}
"
}
