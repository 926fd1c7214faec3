// Pairs of schemas, and what is lost from the old one to the new one, as a second program finds it that was written
// from the definitions in Python. A line is the text of the value, or `included`, and behind `|` the old schema, and
// behind a further `|` the new one.

/// An answer and two schemas a line.
pub fn choice_lines() -> &'static str {
    "\
included|entity A { x: Long };|entity A { x: Long, y?: Long };
A::\"\" with { x: 0 }|entity A { x: Long };|entity A { x: Long, y: Long };
included|entity E enum [\"a\"];|entity E enum [\"b\", \"a\"];
request Action::\"v\" with principal A, resource A|entity A; action v appliesTo { principal: A, resource: A };|entit\
y A; action v;
action Action::\"v\" in Action::\"w\"|action v in w; action w;|action v; action w;
included||
included||entity A;
A::\"\"|entity A;|
A::\"\" with { b: false, d: decimal(..), e: [], l: 0, r: { x: 0 }, s: \"\" }|entity A { b: Bool, d: decimal, e: Set<L\
ong>, l: Long, o?: Long, r: { x: Long, y?: Long }, s: String };|
A::\"\"|entity A { x?: Long };|entity A { x: Long };
A::\"\" with { x: 0, y: \"\" }|entity A { x: Long, y?: String };|entity A { x: Long };
A::\"\" with { r: { x: 0, y: false } }|entity A { r: { x?: Long, y: Bool } };|entity A { r: { x?: String, y: Bool } }\
;
A::\"\" with { x: [0] }|entity A { x: Set<Long> };|entity A { x: Set<String> };
A::\"\" with { x: [[0]] }|entity A { x: Set<Set<Long>> };|entity A { x: Set<Set<Set<Long>>> };
A::\"\" with { x: [{}] }|entity A { x: Set<{ y?: Long }> };|entity A { x: Set<{ y: Long }> };
A::\"\" with { x: ipaddr(..) }|entity A { x: ipaddr };|entity A { x: decimal };
A::\"\" with { x: false }|entity A { x: Bool };|entity A { x: Long };
A::\"\" with { x: \"\" }|entity A { x: String };|entity A { x: Set<String> };
A::\"\" with { \"\": 0, \"a b\": 0, \"in\": 0 }|entity A { \"a b\": Long, \"in\": Long, \"\": Long };|external entit\
y A;
A::\"\" with { x: B::\"\" }|entity A { x: B }; entity B;|entity A { x: C }; entity B; entity C;
A::\"\" with { x: E::\"b\" }|entity A { x: E }; entity E enum [\"a\", \"b\"];|entity A { x: E }; entity E enum [\"a\"\
];
A::\"\" with { x: [E::\"a\"] }|entity A { x: Set<E> }; entity E enum [\"b\", \"a\"];|entity A { x: Set<E> }; entity \
E enum [\"b\"];
E::\"a\"|entity E enum [\"a\", \"b\"];|entity E enum [\"b\"];
E::\"b\"|entity E enum [\"a\", \"b\"];|entity E enum [\"a\"];
included|entity E enum [\"a\\n\", \"b\"];|entity E enum [\"b\", \"a\\n\"];
included|entity E enum [\"a\"];|entity E;
E::\"a\"|entity E enum [\"a\"];|entity E { x: Long };
A::\"a\"|entity A;|entity A enum [\"\"];
A::\"\"|entity A;|entity A enum [\"a\"];
A::\"aa\"|entity A;|entity A enum [\"\", \"a\", \"aaa\"];
A::\"\" with { x: 0 }|entity A { x?: Long };|entity A enum [\"\"];
A::\"\" with { x: B::\"aa\" }|entity A { x: B }; entity B;|entity A { x: B }; entity B enum [\"\", \"a\"];
A::\"\"|entity A;|external entity A;
included|external entity A;|entity B;
A::\"\" tags { \"\": 0 }|entity A tags Long;|entity A;
A::\"\" tags { \"\": 0 }|entity A tags Long;|entity A tags String;
A::\"\" tags { \"\": [0] }|entity A tags Set<Long>;|entity A tags Set<Bool>;
A::\"\" with { x: 0 } tags { \"\": { y: false, z: 0 } }|entity A { x: Long } tags { y: Bool, z?: Long };|entity A { x\
: Long } tags { y: Bool };
included|entity A;|entity A tags Long;
A::\"\" in [B::\"\"]|entity A in B; entity B;|entity A; entity B;
A::\"\" in [C::\"\"]|entity A in B; entity B in C; entity C;|entity A in B; entity B; entity C;
A::\"\" in [E::\"y\"]|entity A in [B, E]; entity B; entity E enum [\"x\", \"y\"];|entity A in [B, E]; entity B; entit\
y E enum [\"x\"];
included|entity A in B; entity B;|entity A in [B, C]; entity B; entity C;
N::A::\"\" with { x: 0 }|namespace N { entity A { x: Long }; }|namespace N { entity A { x: String }; }
M::A::\"\"|namespace N { entity A; } namespace M { entity A; }|namespace O { entity A; }
A::\"\"|entity B; entity A;|entity C;
request Action::\"v\" with principal B, resource A|entity A, B; action v appliesTo { principal: [A, B], resource: A }\
;|entity A, B; action v appliesTo { principal: A, resource: [A, B] };
request Action::\"v\" with principal A, resource A|entity A, B; action v appliesTo { principal: A, resource: [B, A] }\
;|entity A, B; action v appliesTo { principal: A, resource: B };
request Action::\"v\" with principal A, resource A, context { x: 0 }|entity A; action v appliesTo { principal: A, res\
ource: A, context: { x: Long } };|entity A; action v appliesTo { principal: A, resource: A, context: { x: Long, y: Lo\
ng } };
request Action::\"v\" with principal A, resource A, context { x: 0, y: 0 }|entity A; action v appliesTo { principal: \
A, resource: A, context: { x: Long, y?: Long } };|entity A; action v appliesTo { principal: A, resource: A, context: \
{ x: Long, y?: String } };
request Action::\"v\" with principal A, resource A|entity A; action v appliesTo { principal: A, resource: A };|entit\
y A; external action v;
request Action::\"v \\\"w\\\"\" with principal A, resource A|entity A; action \"v \\\"w\\\"\" appliesTo { principal: \
A, resource: A };|entity A;
A::\"\" with { x: Action::\"a\" }|entity A { x: Action }; action a, b;|entity A { x: Action }; action b;
A::\"\" with { x: N::Action::\"b\" }|entity A { x: N::Action }; namespace N { action b; }|entity A { x: Long }; names\
pace N { action b; }
action Action::\"v\" in Action::\"u\"|action v in [w, u]; action w, u;|action v in w; action w, u;
action Action::\"v\" in Action::\"u\"|action v in w; action w in u; action u;|action v in w; action w; action u;
action N::Action::\"v\" in N::Action::\"w\"|namespace N { action v in w; action w; }|namespace N { action v, w; }
action Action::\"b\" in Action::\"a\"|action a; action b in a;|
request Action::\"a\" with principal A, resource A|entity A; action a appliesTo { principal: A, resource: A }; actio\
n b in a;|entity A; action a, b;
A::\"\"|entity A; entity B { x: Long }; action a appliesTo { principal: A, resource: A };|entity B { x: String };
included|entity A = { x: T }; type T = { y?: Long };|entity A { x: { y?: __cedar::Long } };
included|entity A in B; entity B in C; entity C;|entity A in [C, B]; entity B in [C]; entity C;
"
}
