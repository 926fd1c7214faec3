// Places of texts, and what may stand there, as a second program finds it that was written from the definitions in
// Python. A line is the answer, and behind `|` the place, the text of what is known, and the text. An answer is the
// place of the partial word, the kinds that may stand there and how many, and the names; behind `!` it is what is said
// of a text that is refused. Known is what a text declares, `*` for the one below, or nothing where it is empty.

/// A schema with several namespaces.
pub fn known_schema() -> &'static str {
    "\
entity A, Ab; type T = String; action act, \"my act\"; namespace N { entity A, Bc; type U = T; type A2 = U; action a\
1, \"in\", \"\\u{e9}\\n\"; } namespace N::M { entity A; type Ab = T; action act; } namespace Other { entity Ab; typ\
e true_ = T; }"
}

/// Texts with places.
pub fn assist_lines() -> &'static str {
    "\
@23-24 expected identifier or `[` 14: Ab|24|entity Ab; entity B in A;|entity Ab; entity B in A;
@23-23 expected identifier or `[` 14: Ab B|23|entity Ab; entity B in A;|entity Ab; entity B in A;
!invalid token|13||entity A in ~
!no such place|9|entity A;|entity A
@40-40 expected identifier or `{` 14: B N::A|40|namespace N { entity A; } entity B;|namespace N { entity A; } entit\
y B { x:  };
@14-14 expected identifier or `{` 14: A Ab Action N::A N::A2 N::Action N::Bc N::M::A N::M::Ab N::M::Action N::U Othe\
r::Ab Other::true_ T|14|*|entity X { x:  };
@12-12 expected identifier or `[` 14: A Ab N::A N::Bc N::M::A Other::Ab|12|*|entity X in 
@13-13 expected identifier or `]` 14: A Ab N::A N::Bc N::M::A Other::Ab|13|*|entity X in [
@16-16 expected identifier or `]` 14: A Ab N::A N::Bc N::M::A Other::Ab|16|*|entity X in [A, 
@12-13 expected identifier or `[` 14: A Ab|13|*|entity X in A
@12-13 expected identifier or `[` 14: N::A N::Bc N::M::A|13|*|entity X in N
@19-19 expected identifier 13:|19|*|entity X in Other::
@14-14 expected identifier or `{` 14: A Ab Action N::A N::A2 N::Action N::Bc N::M::A N::M::Ab N::M::Action N::U Othe\
r::Ab Other::true_ T|14|*|entity X tags 
@9-9 expected identifier or `{` 14: A Ab Action N::A N::A2 N::Action N::Bc N::M::A N::M::Ab N::M::Action N::U Other:\
:Ab Other::true_ T|9|*|type X = 
@13-13 expected identifier or `{` 14: A Ab Action N::A N::A2 N::Action N::Bc N::M::A N::M::Ab N::M::Action N::U Othe\
r::Ab Other::true_ T|13|*|type X = Set<
@9-12 expected identifier or `{` 14:|12|*|type X = Set
@13-14 expected identifier or `{` 14: N::A N::A2 N::Action N::Bc N::M::A N::M::Ab N::M::Action N::U|14|*|type X = {a\
: N
@12-12 expected identifier, string literal or `[` 15: \"my act\" act|12|*|action x in 
@13-13 expected identifier, string literal or `]` 15: \"my act\" act|13|*|action x in [
@12-13 expected identifier, string literal or `[` 15:|13|*|action x in m
@12-13 expected identifier, string literal or `[` 15: act|13|*|action x in a
@30-30 expected identifier or `{` 14: N::A2 N::M::Ab N::U Other::true_ T|30|*|action x appliesTo { context: 
@30-31 expected identifier or `{` 14: T|31|*|action x appliesTo { context: T
@32-32 expected identifier or `[` 14: A Ab N::A N::Bc N::M::A Other::Ab|32|*|action x appliesTo { principal: 
@36-37 expected identifier or `]` 14: A Ab|37|*|action x appliesTo { principal: [A, A
@26-26 expected identifier or `[` 14: A Ab Bc N::M::A Other::Ab|26|*|namespace N { entity X in 
@23-24 expected identifier or `{` 14: A A2 Ab Action|24|*|namespace N { type X = A
@23-23 expected identifier or `{` 14: A A2 Ab Action Bc N::M::A N::M::Ab N::M::Action Other::Ab Other::true_ T U|23|\
*|namespace N { type X = 
@26-26 expected identifier, string literal or `[` 15: \"in\" \"my act\" \"é\\n\" a1 act|26|*|namespace N { actio\
n x in 
@27-28 expected identifier, string literal or `]` 15: a1 act|28|*|namespace N { action x in [a
@31-32 expected identifier or `{` 14: A Ab Action|32|*|namespace N::M { entity X { a: A
@29-29 expected identifier, string literal or `[` 15: \"my act\" act|29|*|namespace N::M { action x in 
@47-47 expected identifier or `{` 14: Ab N::A2 N::U Other::true_ T|47|*|namespace N::M { action x appliesTo { contex\
t: 
@30-31 expected identifier or `[` 14: A Ab|31|*|namespace Other { entity X in A
@29-29 expected identifier or `[` 14: A Ab N::A N::Bc N::M::A Other::Ab|29|*|namespace true { entity X in 
@29-29 expected identifier, string literal or `[` 15: \"my act\" act|29|*|namespace true { action x in 
@27-27 expected identifier or `[` 14: A Ab N::A N::Bc N::M::A Other::Ab|27|*|namespace N {} entity X in 
@52-52 expected identifier or `[` 14: A Ab N::A N::Bc N::M::A Other::Ab|52|*|namespace N { entity A; } namespac\
e Q { entity X in 
@29-29 expected identifier or `{` 14: A Ab Action N::A N::A2 N::Action N::Bc N::M::A N::M::Ab N::M::Action N::U Othe\
r::Ab Other::true_ T|29|*|namespace __cedar { type X = 
@0-0 expected `namespace`, `entity`, `external`, `type`, `action`, `@` or end of input 7:|0|*|
@0-3 expected `namespace`, `entity`, `external`, `type`, `action`, `@` or end of input 7:|3|*|ent
@0-6 expected `namespace`, `entity`, `external`, `type`, `action`, `@` or end of input 7:|6|*|entity
@7-7 expected identifier 13:|7|*|entity 
@10-10 expected identifier 13:|10|*|namespace 
@4-4 expected `namespace`, `entity`, `external`, `type`, `action`, `@` or end of input 7:|4|*|// A
@16-16 expected `tags`, `;`, `::`, `{` or `=` 5:|16|*|entity X in A //
@1-2 expected `in` or identifier 14:|2|*|@a
!invalid token|4|*|@a(\"
!unexpected token `}`|12|*|entity X } A
!invalid token|14|*|entity X in é
@15-16 expected identifier, string literal or `[` 15: act|16|*|action \"é\" in a
@13-14 expected identifier or `[` 14: A Ab|14|*|entity X in A
@15-15 expected string literal or `]` 2:|15|*|entity X enum [
@12-14 expected identifier or `[` 14:|14|*|entity X in A2
!no such place|8|*|entity é
!invalid token|9|*|entity é
@12-13 expected identifier or `[` 14: A Ab|13|*|entity X in Ab;
@12-14 expected identifier or `[` 14: Ab|14|*|entity X in Ab;
@12-12 expected identifier or `[` 14: A Ab N::A N::Bc N::M::A Other::Ab|12|*|entity X in Ab;
@15-15 expected `namespace`, `entity`, `external`, `type`, `action`, `@` or end of input 7:|15|*|entity X in Ab;
"
}
