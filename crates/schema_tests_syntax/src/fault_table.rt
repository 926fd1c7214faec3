// Texts, and the faults that a second program finds in them, which was written from the definitions in Python. A line is the fault,
// then behind `|` the text. Of a syntax fault it has the place, the token and what may come there: a letter is a kind, by its place
// in the order of all kinds, `A` for the first to `Z`, then `a` to `e`. ␤ stands for a line feed and ␍ for a carriage return.

/// Texts that do not follow the grammar.
pub fn syntax_fault_lines() -> &'static str {
    "\
end 8 DLMQRWd|entity A
invalid 9|entity A ~
token 7-10 \"x\" ABCEFGHIJKLMN|entity \"x\";
end 11 TW|namespace N
end 13 ABCEFGHIJKLMNZ|entity A in [
end 10 ABCEFGHIJKLMNOPX|entity A {
end 12 RTa|type T = Set
token 9-10 { DGQR|action a { };
token 14-15 ; ABCEIPe|namespace N {};
token 16-17 ; T|action a in b::c;
token 17-18 ] T|action a in [b::c];
token 13-14 , ABCEFGHIJKLMNZ|entity A in [,];
token 15-16 , ABCEFGHIJKLMNZ|entity A in [B,,C];
end 17 Tb|type T = Set<Long
token 13-14 > ABCEFGHIJKLMNW|type T = Set<>;
token 12-16 Long Sc|type T = {a Long};
token 9-10 A ABCEIPU|@ entity A;
end 2 ABCEIPU|@a
end 3 O|@a(
token 7-13 entity V|@a(\"x\" entity A;
token 3-4 x O|@a(x) entity A;
token 9-13 type BI|external type T = A;
token 18-27 appliesTo DQR|external action a appliesTo { };
token 18-19 { DQR|external entity A { };
end 16 Y|entity A, B enum
token 15-16 a OZ|entity E enum [a];
token 31-32 } S|action a appliesTo { principal };
token 21-28 subject HJKX|action a appliesTo { subject: A };
token 7-9 in ABCEFGHIJKLMN|entity in;
token 9-11 in ABCEFGHIJKLMNW|type T = in;
token 12-14 in ABCEFGHIJKLMNY|entity A in in;
token 10-11 } ABCEIPe|entity A; }
token 14-23 namespace BCEIPX|namespace N { namespace M {} }
invalid 7|entity \u{e9};
invalid 10|entity A; \"x
invalid 0|\"\\␤\"
invalid 9|entity A /* c */;
token 15-16 } ABCEIPe|entity A; // c␍}
token 16-17 ; ABCEFGHIJKLMN|type T = a:: b::;
token 17-18 } BCEIPU|namespace N { @a }
invalid 10|entity if ~
token 17-23 entity R|entity A enum [] entity
end 21 DLMQRWd|entity A; entity true
token 0-1 ; ABCEIPe|;"
}

/// Texts that follow the grammar and have what they may not have.
pub fn user_fault_lines() -> &'static str {
    "\
reserved true@7-11|entity true;
reserved false@16-21|entity A in [B, false];
reserved if@13-15|type T = Set<if>;
reserved then@5-9|type then = Long;
reserved else@7-11|action else;
reserved is@11-13|entity A { is: B };
reserved like@13-17|namespace N::like {}
reserved has@12-15|action a in has;
reserved if@12-14|entity A in if;
reserved is@15-17|action a in A::is::\"x\";
reserved then@36-40|action a appliesTo { principal: [A, then] };
reserved like@30-34|action a appliesTo { context: like };
reserved else@14-18|entity A tags else;
reserved has@10-13|entity A, has;
reserved true@19-23|external action a, true;
reserved false@24-29|external entity A in N::false;
reserved if@10-12|namespace if { }
reserved if@20-22|entity A { \"if\": B, if: C };
empty@14-16|entity A enum [];
empty@14-25|entity A enum [ // none␤];
empty@19-21|action a appliesTo {};
empty@19-22|action a appliesTo { };
escape 16@15-19|entity A enum [\"\\q\"];
escape 16@15-21|entity E enum [\"\\x80\"];
escape 16@15-25|entity E enum [\"\\u{D800}\"];
escape 16@15-27|entity E enum [\"\\u{110000}\"];
escape 16@15-21|entity E enum [\"\\u{}\"];
escape 16@15-23|entity E enum [\"\\u{_1}\"];
escape 16@15-28|entity E enum [\"\\u{0000001}\"];
escape 16@15-21|entity E enum [\"\\u{1\"];
escape 16@15-20|entity E enum [\"\\x4\"];
escape 16@15-21|entity E enum [\"\\u41\"];
escape 20@15-25|entity E enum [\"ok\\n\\8\\q\"];
escape 18@15-22|entity E enum [\"\u{e9}\\\u{e9}\"];
escape 16@15-19|entity E enum [\"\\␍\"];
escape 4@3-7|@a(\"\\q\") entity A;
escape 8@7-11|action \"\\q\";
escape 13@12-16|action a in \"\\q\";
escape 16@15-19|action a in A::\"\\q\";
escape 12@11-15|entity A { \"\\q\": B };
twice a@1-2@4-5|@a @a entity A;
twice a@1-2@4-5|@a @a(\"\\q\") entity A;
escape 4@3-7|@a(\"\\q\") @a entity A;
twice a@1-2@12-13|@a(\"x\") @b @a(\"x\") entity A;
twice a@4-5@7-8|@b @a @a @b entity A;
twice a@1-2@4-5|@a @a @a entity A;
twice if@1-3@5-7|@if @if action a;
twice a@12-13@15-16|entity A { @a @a x: B };
twice x@16-17@27-28|type T = Set<{ @x @y(\"1\") @x(\"2\") z: B }>;
twice a@1-2@4-5|@a @a namespace N { }
twice a@15-16@21-22|namespace N { @a @b @a entity A; }
twice a@33-34@36-37|action a appliesTo { context: { @a @a x: B } };
reserved if@7-9|entity if, then;
empty@14-16|entity E enum [] ; @a @a entity true;
reserved true@7-11|entity true enum [];
escape 4@3-7|@a(\"\\q\") entity if;
twice a@1-2@4-5|@a @a entity if;
escape 16@15-19|entity E enum [\"\\q\", \"\\z\"];
reserved if@7-9|action if appliesTo {};
reserved is@16-18|entity A { x: { is: has } };
reserved like@13-17|action a in [like::\"\\q\"];"
}
