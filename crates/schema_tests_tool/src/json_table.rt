// Runs of the commands that write and read JSON, in the form of today and in the deprecated one. The first were chosen by
// hand, the others made at random from valid texts; how they are answered was told by a second program, which was written
// from the definitions in Python. ␤ stands for a line feed; a line that ends with a backslash goes on in the next.

/// Runs: the words, the exit code, the output, the error output and the input, with `|` between.
pub fn json_lines() -> &'static str {
    "\
to-json|0|{\"\":{\"actions\":{},\"entityTypes\":{\"User\":{\"shape\":{\"attributes\":{\"a\":{\"name\":\"String\",\"typ\
e\":\"EntityOrCommon\"}},\"type\":\"Record\"}}}}}␤||entity User {a : String };
to-json|0|{}␤||
to-json|0|{\"\":{\"actions\":{},\"entityTypes\":{\"A\":{\"memberOfTypes\":[\"X\"]}}}}␤||entity A in X;
to-json|0|{\"\":{\"actions\":{\"a\":{\"appliesTo\":{\"principalTypes\":[],\"resourceTypes\":[]}}},\"entityTypes\":{}}}\
␤||action a in [];
to-json|1||error: unexpected end of input␤  at 10..10: expected identifier, string literal, `@` or `}`␤|entity A {
to-json|1||error: `A` is declared twice␤  at 7..8␤  at 17..18␤|entity A; entity A;
to-json|0|{\"M\":{\"actions\":{\"top\":{\"appliesTo\":{\"principalTypes\":[],\"resourceTypes\":[]}}},\"entityTypes\":{\
}},\"N\":{\"actions\":{\"do it\":{\"annotations\":{\"k\":null},\"appliesTo\":{\"context\":{\"attributes\":{\"c\":{\"na\
me\":\"T\",\"type\":\"EntityOrCommon\"}},\"type\":\"Record\"},\"principalTypes\":[\"A\",\"B\"],\"resourceTypes\":[\"F\
\"]},\"memberOf\":[{\"id\":\"go\"}]},\"far\":{\"external\":true,\"memberOf\":[{\"id\":\"top\",\"type\":\"M::Action\"}]\
},\"go\":{\"appliesTo\":{\"principalTypes\":[],\"resourceTypes\":[]}}},\"annotations\":{\"doc\":\"dé\"},\"commonTypes\
\":{\"T\":{\"attributes\":{\"a\":{\"name\":\"A\",\"type\":\"EntityOrCommon\"}},\"type\":\"Record\"}},\"entityTypes\":{\
\"A\":{\"memberOfTypes\":[\"A\"],\"shape\":{\"attributes\":{\"x\":{\"element\":{\"name\":\"Long\",\"type\":\"EntityOrC\
ommon\"},\"required\":false,\"type\":\"Set\"},\"y z\":{\"attributes\":{\"w\":{\"name\":\"ipaddr\",\"type\":\"EntityOrC\
ommon\"}},\"type\":\"Record\"}},\"type\":\"Record\"},\"tags\":{\"name\":\"Bool\",\"type\":\"EntityOrCommon\"}},\"B\":{\
\"memberOfTypes\":[\"A\"],\"shape\":{\"attributes\":{\"x\":{\"element\":{\"name\":\"Long\",\"type\":\"EntityOrCommon\"\
},\"required\":false,\"type\":\"Set\"},\"y z\":{\"attributes\":{\"w\":{\"name\":\"ipaddr\",\"type\":\"EntityOrCommon\"\
}},\"type\":\"Record\"}},\"type\":\"Record\"},\"tags\":{\"name\":\"Bool\",\"type\":\"EntityOrCommon\"}},\"E\":{\"enum\
\":[\"p\",\"q\\\"r\"]},\"F\":{\"external\":true,\"memberOfTypes\":[\"A\"]}}}}␤||@doc(\"d\\u{e9}\") namespace N { entit\
y A, B in [A] { x?: Set<Long>, \"y z\": { w: ipaddr } } tags Bool; entity E enum [\"p\", \"q\\\"r\"]; external entity \
F in A; type T = { a: A }; @k action \"do it\" in [go] appliesTo { principal: [A, B], resource: F, context: { c: T } }\
; action go; external action far in M::Action::\"top\"; } namespace M { action top; }
to-json x|2||usage: cedar_schema_tool COMMAND [NAME..]␤|entity A;
from-json|0|entity User = {␤  a: __cedar::String,␤};␤||{\"\":{\"actions\":{},\"entityTypes\":{\"User\":{\"shape\":{\"a\
ttributes\":{\"a\":{\"name\":\"String\",\"type\":\"EntityOrCommon\"}},\"type\":\"Record\"}}}}}
from-json|0|||{}
from-json|0|namespace N {␤  entity A tags Set<N::B>;␤␤  entity B enum [\"x\", \"y z\"];␤␤  action \"a\" in [N::Action:\
:\"b\"] appliesTo {␤    principal: [N::A, N::B],␤    resource: [N::A],␤    context: {␤      k?: __cedar::decimal,␤    \
},␤  };␤␤  external action \"b\";␤}␤||{\"N\":{\"entityTypes\":{\"A\":{\"tags\":{\"type\":\"Set\",\"element\":{\"type\"\
:\"Entity\",\"name\":\"B\"}}},\"B\":{\"enum\":[\"x\",\"y z\"]}},\"actions\":{\"a\":{\"appliesTo\":{\"resourceTypes\":[\
\"A\"],\"principalTypes\":[\"A\",\"B\"],\"context\":{\"type\":\"T\"}},\"memberOf\":[{\"id\":\"b\"}]},\"b\":{\"external\
\":true}},\"commonTypes\":{\"T\":{\"type\":\"Record\",\"attributes\":{\"k\":{\"type\":\"Extension\",\"name\":\"decimal\
\",\"required\":false}}}}}}
from-json|0|entity A;␤␤action \"a\";␤||{\"\":{\"entityTypes\":{\"A\":{}},\"actions\":{\"a\":{\"appliesTo\":{\"resource\
Types\":[\"A\"],\"principalTypes\":[]}}}}}
from-json|1||error: failed to resolve type: X␤|{\"\":{\"entityTypes\":{\"A\":{\"memberOfTypes\":[\"X\"]}},\"actions\":\
{}}}
from-json|1||error: unsupported feature used in schema␤|{\"\":{\"entityTypes\":{\"A\":{\"shape\":{\"type\":\"Record\",\
\"attributes\":{},\"additionalAttributes\":true}}},\"actions\":{}}}
from-json|1||error: unknown extension type `x`␤|{\"\":{\"entityTypes\":{\"A\":{\"tags\":{\"type\":\"Extension\",\"name\
\":\"x\"}}},\"actions\":{}}}
from-json|1||error: the type `Action` of the empty namespace is used in namespace `N` by entity type `E`, where it wou\
ld be read as `N::Action`␤|{\"\":{\"entityTypes\":{},\"actions\":{\"z\":{}},\"commonTypes\":{\"T\":{\"type\":\"Entity\
\",\"name\":\"Action\"}}},\"N\":{\"entityTypes\":{\"E\":{\"shape\":{\"type\":\"Record\",\"attributes\":{\"x\":{\"type\
\":\"T\"}}}}},\"actions\":{\"a\":{}}}}
from-json|1||error: the text is not JSON␤  help: this API was expecting a schema in the JSON format; did you mean to u\
se a different function, which expects the Cedar schema format?␤|entity A;
from-json|1||error: missing field `entityTypes`␤  help: JSON formatted schema must specify a namespace. If you want to \
use the empty namespace, explicitly specify it with `{ \"\": {..} }`␤|{\"entityTypes\":{},\"actions\":{}}
from-json|1||error: the text is not JSON␤|{\"a\":1
from-json|1||error: invalid entry: found duplicate key␤|{\"Foo\":{\"entityTypes\":{},\"actions\":{}},\"Foo\":{\"entity\
Types\":{},\"actions\":{}}}
from-json|1||error: a number is no whole number of 64 bits␤|{\"\":{\"entityTypes\":{},\"actions\":{\"a\":{\"attributes\
\":{\"x\":-0}}}}}
from-json|1||error: unknown field `more`␤|{\"\":{\"entityTypes\":{},\"actions\":{},\"more\":1}}
from-json|1||error: missing field `actions`␤|{\"\":{\"entityTypes\":{}}}
from-json|1||error: wrong type of value for `external`␤|{\"\":{\"entityTypes\":{},\"actions\":{\"a\":{\"external\":nul\
l}}}}
from-json|1||error: wrong type of value for ``␤  help: this API was expecting a schema in the JSON format; did you mea\
n to use a different function, which expects the Cedar schema format?␤|[]
from-json|1||error: invalid namespace `A:: B`: the name is not normalized␤|{\"A:: B\":{\"entityTypes\":{},\"actions\":\
{}}}
from-json|1||error: invalid namespace `A::`: unexpected end of input␤|{\"A::\":{\"entityTypes\":{},\"actions\":{}}}
from-json|1||error: invalid namespace `1`: unexpected token `1`␤|{\"1\":{\"entityTypes\":{},\"actions\":{}}}
from-json|1||error: invalid namespace `~`: invalid token␤|{\"~\":{\"entityTypes\":{},\"actions\":{}}}
from-json|1||error: invalid namespace `in`: the word `in` is reserved␤|{\"in\":{\"entityTypes\":{},\"actions\":{}}}
from-json|1||error: this is reserved and cannot be the basename of a common-type declaration: Bool␤|{\"\":{\"entityTyp\
es\":{},\"actions\":{},\"commonTypes\":{\"Bool\":{\"type\":\"Long\"}}}}
from-json|1||error: an enumerated entity type has no choices␤|{\"\":{\"entityTypes\":{\"A\":{\"enum\":[]}},\"actions\"\
:{}}}
from-json|1||error: unexpected field on an external entity type: shape, tags␤|{\"\":{\"entityTypes\":{\"A\":{\"externa\
l\":true,\"tags\":1,\"shape\":2}},\"actions\":{}}}
from-json|1||error: unexpected field on an external action: appliesTo␤|{\"\":{\"entityTypes\":{},\"actions\":{\"a\":{\
\"external\":true,\"appliesTo\":{\"resourceTypes\":[],\"principalTypes\":[]}}}}}
from-json|1||error: unexpected field: memberOfTypes, shape␤|{\"\":{\"entityTypes\":{\"A\":{\"enum\":[\"a\"],\"shape\":\
{\"type\":\"Long\"},\"memberOfTypes\":[]}},\"actions\":{}}}
from-json|1||error: annotations are not allowed on the empty namespace␤|{\"\":{\"entityTypes\":{},\"actions\":{},\"ann\
otations\":{\"doc\":\"d\"}}}
from-json x|2||usage: cedar_schema_tool COMMAND [NAME..]␤|{}
to-json|0|{\"\":{\"actions\":{\"a\":{\"appliesTo\":{\"principalTypes\":[],\"resourceTypes\":[]}}},\"commonTypes\":{\"T\
\":{\"name\":\"__cedar::Long\",\"type\":\"EntityOrCommon\"}},\"entityTypes\":{}}}␤||action a; type T = __cedar::Long;
to-json|0|{\"\":{\"actions\":{\"a\":{\"appliesTo\":{\"principalTypes\":[],\"resourceTypes\":[]}}},\"entityTypes\":{\"B\
\":{},\"T\":{}}},\"M\":{\"actions\":{},\"entityTypes\":{}}}␤||entity T; entity B {}; action a; namespace M {  }
to-json|0|{\"\":{\"actions\":{\"a\":{\"appliesTo\":{\"principalTypes\":[],\"resourceTypes\":[]}}},\"entityTypes\":{\"T\
\":{\"enum\":[\"a\"]}}}}␤||action a; entity T enum [\"a\"];
to-json|0|{\"\":{\"actions\":{\"b\":{\"appliesTo\":{\"principalTypes\":[],\"resourceTypes\":[]}}},\"commonTypes\":{\"U\
\":{\"name\":\"decimal\",\"type\":\"EntityOrCommon\"}},\"entityTypes\":{\"A\":{\"tags\":{\"name\":\"U\",\"type\":\"Ent\
ityOrCommon\"}},\"B\":{\"tags\":{\"name\":\"U\",\"type\":\"EntityOrCommon\"}}}}}␤||entity A, B = {} tags U; action b; \
type U = decimal;
to-json|0|{\"\":{\"actions\":{\"c\":{\"appliesTo\":{\"principalTypes\":[],\"resourceTypes\":[]}}},\"entityTypes\":{}},\
\"M\":{\"actions\":{},\"entityTypes\":{}}}␤||action c; namespace M {  }
to-json|0|{\"\":{\"actions\":{\"c\":{\"external\":true},\"d e\":{\"appliesTo\":{\"principalTypes\":[],\"resourceTypes\
\":[]}}},\"entityTypes\":{\"C\":{\"enum\":[\"a\"]}}}}␤||external action c; action \"d e\"; entity C enum [\"a\"];
to-json|0|{\"\":{\"actions\":{\"d e\":{\"appliesTo\":{\"principalTypes\":[],\"resourceTypes\":[]}}},\"entityTypes\":{}\
},\"N::M\":{\"actions\":{\"c\":{\"external\":true}},\"entityTypes\":{\"U\":{},\"entity\":{}}}}␤||namespace N::M { exte\
rnal action c; entity U, entity; } action \"d e\";
to-json|0|{\"\":{\"actions\":{\"d e\":{\"appliesTo\":{\"principalTypes\":[],\"resourceTypes\":[]}}},\"entityTypes\":{}\
},\"N::M\":{\"actions\":{},\"entityTypes\":{\"C\":{},\"entity\":{}}}}␤||namespace N::M { entity C, entity in [] {}; } \
action \"d e\";
to-json|0|{\"\":{\"actions\":{},\"commonTypes\":{\"A\":{\"attributes\":{\"x\":{\"name\":\"__cedar::String\",\"type\":\
\"EntityOrCommon\"}},\"type\":\"Record\"}},\"entityTypes\":{\"U\":{}}}}␤||type A = {x: __cedar::String}; entity U;
to-json|0|{\"\":{\"actions\":{},\"commonTypes\":{\"A\":{\"name\":\"decimal\",\"type\":\"EntityOrCommon\"}},\"entityTyp\
es\":{\"B\":{\"enum\":[\"b\\n\"]}}}}␤||type A = decimal; entity B enum [\"b\\n\"];
to-json|0|{\"\":{\"actions\":{},\"commonTypes\":{\"B\":{\"name\":\"decimal\",\"type\":\"EntityOrCommon\"}},\"entityTyp\
es\":{}},\"N\":{\"actions\":{},\"entityTypes\":{\"A\":{}}}}␤||type B = decimal; namespace N { entity A in []; }
to-json|0|{\"\":{\"actions\":{},\"commonTypes\":{\"B\":{\"name\":\"ipaddr\",\"type\":\"EntityOrCommon\"}},\"entityType\
s\":{\"C\":{\"shape\":{\"attributes\":{\"x\":{\"name\":\"C\",\"type\":\"EntityOrCommon\"}},\"type\":\"Record\"}}}}}␤||\
type B = ipaddr; entity C {x: C};
to-json|0|{\"\":{\"actions\":{},\"commonTypes\":{\"C\":{\"attributes\":{\"w\":{\"name\":\"decimal\",\"type\":\"EntityO\
rCommon\"}},\"type\":\"Record\"}},\"entityTypes\":{\"U\":{\"shape\":{\"attributes\":{\"w\":{\"name\":\"ipaddr\",\"requ\
ired\":false,\"type\":\"EntityOrCommon\"}},\"type\":\"Record\"}}}}}␤||entity U = {w?: ipaddr}; type C = {w: decimal};
to-json|0|{\"\":{\"actions\":{},\"commonTypes\":{\"T\":{\"name\":\"Long\",\"type\":\"EntityOrCommon\"}},\"entityTypes\
\":{\"B\":{\"shape\":{\"attributes\":{\"z\":{\"name\":\"Long\",\"type\":\"EntityOrCommon\"}},\"type\":\"Record\"}}}}}␤\
||entity B in [] = {z: Long}; type T = Long;
to-json|0|{\"\":{\"actions\":{},\"commonTypes\":{\"U\":{\"name\":\"A\",\"type\":\"EntityOrCommon\"}},\"entityTypes\":{\
\"A\":{\"memberOfTypes\":[\"A\"]}}},\"N\":{\"actions\":{\"b\":{\"external\":true}},\"entityTypes\":{}}}␤||entity A in \
A; type U = A; namespace N { external action b; }
to-json|0|{\"\":{\"actions\":{},\"commonTypes\":{\"U\":{\"name\":\"decimal\",\"type\":\"EntityOrCommon\"}},\"entityTyp\
es\":{\"T\":{\"tags\":{\"attributes\":{\"a b\":{\"name\":\"String\",\"required\":false,\"type\":\"EntityOrCommon\"},\"\
y\":{\"name\":\"String\",\"type\":\"EntityOrCommon\"}},\"type\":\"Record\"}}}}}␤||entity T tags {y: String, \"a b\"?: \
String}; type U = decimal;
to-json|0|{\"\":{\"actions\":{},\"commonTypes\":{\"entity\":{\"name\":\"Bool\",\"type\":\"EntityOrCommon\"}},\"entityT\
ypes\":{\"Set\":{\"enum\":[\"a\"]}}}}␤||entity Set enum [\"a\"]; type entity = Bool;
to-json|0|{\"\":{\"actions\":{},\"entityTypes\":{\"A\":{\"enum\":[\"b\\n\"]}}},\"N\":{\"actions\":{\"a\":{\"appliesTo\
\":{\"principalTypes\":[],\"resourceTypes\":[]}}},\"entityTypes\":{}}}␤||namespace N { action a; } entity A enum [\"b\
\\n\"];
from-json|0|action \"a\";␤||{\"\":{\"actions\":{\"a\":{\"appliesTo\":{\"principalTypes\":[],\"resourceTypes\":[]}}},\"\
commonTypes\":{\"T\":{\"name\":\"__cedar::Long\",\"type\":\"EntityOrCommon\"}},\"entityTypes\":{}}}
from-json|0|action \"c\";␤||{\"\":{\"actions\":{\"c\":{\"appliesTo\":{\"principalTypes\":[],\"resourceTypes\":[]}}},\"\
entityTypes\":{}},\"M\":{\"actions\":{},\"entityTypes\":{}}}
from-json|0|action \"d e\";␤␤namespace N::M {␤  entity C;␤␤  entity entity;␤}␤||{\"\":{\"actions\":{\"d e\":{\"applies\
To\":{\"principalTypes\":[],\"resourceTypes\":[]}}},\"entityTypes\":{}},\"N::M\":{\"actions\":{},\"entityTypes\":{\"C\
\":{},\"entity\":{}}}}
from-json|0|action \"d e\";␤␤namespace N::M {␤  entity U;␤␤  entity entity;␤␤  external action \"c\";␤}␤||{\"\":{\"act\
ions\":{\"d e\":{\"appliesTo\":{\"principalTypes\":[],\"resourceTypes\":[]}}},\"entityTypes\":{}},\"N::M\":{\"actions\
\":{\"c\":{\"external\":true}},\"entityTypes\":{\"U\":{},\"entity\":{}}}}
from-json|0|entity A = {␤  w: __cedar::ipaddr,␤};␤␤entity U = {␤  w: __cedar::ipaddr,␤};␤␤action \"a\";␤||{\"\":{\"act\
ions\":{\"a\":{\"appliesTo\":{\"principalTypes\":[],\"resourceTypes\":[]}}},\"entityTypes\":{\"A\":{\"shape\":{\"attri\
butes\":{\"w\":{\"name\":\"ipaddr\",\"type\":\"EntityOrCommon\"}},\"type\":\"Record\"}},\"U\":{\"shape\":{\"attributes\
\":{\"w\":{\"name\":\"ipaddr\",\"type\":\"EntityOrCommon\"}},\"type\":\"Record\"}}}},\"N\":{\"actions\":{},\"entityTyp\
es\":{}}}
from-json|0|entity A enum [\"b\\n\"];␤␤entity C in [A] tags __cedar::String;␤␤namespace M {␤  entity U;␤}␤||{\"\":{\"a\
ctions\":{},\"entityTypes\":{\"A\":{\"enum\":[\"b\\n\"]},\"C\":{\"memberOfTypes\":[\"A\"],\"tags\":{\"name\":\"__cedar\
::String\",\"type\":\"EntityOrCommon\"}}}},\"M\":{\"actions\":{},\"entityTypes\":{\"U\":{}}},\"N\":{\"actions\":{},\"c\
ommonTypes\":{\"U\":{\"name\":\"ipaddr\",\"type\":\"EntityOrCommon\"}},\"entityTypes\":{}}}
from-json|0|entity A enum [\"b\\n\"];␤␤namespace N {␤  action \"a\";␤}␤||{\"\":{\"actions\":{},\"entityTypes\":{\"A\":\
{\"enum\":[\"b\\n\"]}}},\"N\":{\"actions\":{\"a\":{\"appliesTo\":{\"principalTypes\":[],\"resourceTypes\":[]}}},\"enti\
tyTypes\":{}}}
from-json|0|entity A in [A];␤␤namespace N {␤  external action \"b\";␤}␤||{\"\":{\"actions\":{},\"commonTypes\":{\"U\":\
{\"name\":\"A\",\"type\":\"EntityOrCommon\"}},\"entityTypes\":{\"A\":{\"memberOfTypes\":[\"A\"]}}},\"N\":{\"actions\":\
{\"b\":{\"external\":true}},\"entityTypes\":{}}}
from-json|0|entity A in [B] = {␤  \"a b\"?: B,␤};␤␤entity B in [B] = {␤  \"a b\"?: B,␤};␤||{\"\":{\"actions\":{},\"ent\
ityTypes\":{\"A\":{\"memberOfTypes\":[\"B\"],\"shape\":{\"attributes\":{\"a b\":{\"name\":\"B\",\"required\":false,\"t\
ype\":\"EntityOrCommon\"}},\"type\":\"Record\"}},\"B\":{\"memberOfTypes\":[\"B\"],\"shape\":{\"attributes\":{\"a b\":{\
\"name\":\"B\",\"required\":false,\"type\":\"EntityOrCommon\"}},\"type\":\"Record\"}}}}}
from-json|0|entity A tags Set<Set<__cedar::Bool>>;␤␤entity T tags Set<Set<__cedar::Bool>>;␤||{\"\":{\"actions\":{},\"e\
ntityTypes\":{\"A\":{\"tags\":{\"element\":{\"element\":{\"name\":\"Bool\",\"type\":\"EntityOrCommon\"},\"type\":\"Set\
\"},\"type\":\"Set\"}},\"T\":{\"tags\":{\"element\":{\"element\":{\"name\":\"Bool\",\"type\":\"EntityOrCommon\"},\"typ\
e\":\"Set\"},\"type\":\"Set\"}}}}}
from-json|0|entity A tags __cedar::decimal;␤␤entity B tags __cedar::decimal;␤␤action \"b\";␤||{\"\":{\"actions\":{\"b\
\":{\"appliesTo\":{\"principalTypes\":[],\"resourceTypes\":[]}}},\"commonTypes\":{\"U\":{\"name\":\"decimal\",\"type\"\
:\"EntityOrCommon\"}},\"entityTypes\":{\"A\":{\"tags\":{\"name\":\"U\",\"type\":\"EntityOrCommon\"}},\"B\":{\"tags\":{\
\"name\":\"U\",\"type\":\"EntityOrCommon\"}}}}}
from-json|0|entity B = {␤  y?: {  },␤};␤␤entity U = {␤  y?: {  },␤};␤||{\"\":{\"actions\":{},\"entityTypes\":{\"B\":{\
\"shape\":{\"attributes\":{\"y\":{\"attributes\":{},\"required\":false,\"type\":\"Record\"}},\"type\":\"Record\"}},\"U\
\":{\"shape\":{\"attributes\":{\"y\":{\"attributes\":{},\"required\":false,\"type\":\"Record\"}},\"type\":\"Record\"}}\
}}}
from-json|0|entity B = {␤  z: __cedar::Long,␤};␤||{\"\":{\"actions\":{},\"commonTypes\":{\"T\":{\"name\":\"Long\",\"ty\
pe\":\"EntityOrCommon\"}},\"entityTypes\":{\"B\":{\"shape\":{\"attributes\":{\"z\":{\"name\":\"Long\",\"type\":\"Entit\
yOrCommon\"}},\"type\":\"Record\"}}}}}
from-json|0|entity B enum [\"a\"];␤␤namespace M {␤  action \"a\";␤}␤||{\"\":{\"actions\":{},\"entityTypes\":{\"B\":{\"\
enum\":[\"a\"]}}},\"M\":{\"actions\":{\"a\":{\"appliesTo\":{\"principalTypes\":[],\"resourceTypes\":[]}}},\"commonType\
s\":{\"C\":{\"name\":\"decimal\",\"type\":\"EntityOrCommon\"}},\"entityTypes\":{}}}
from-json|0|entity B enum [\"b\\n\"];␤||{\"\":{\"actions\":{},\"commonTypes\":{\"A\":{\"name\":\"decimal\",\"type\":\"\
EntityOrCommon\"}},\"entityTypes\":{\"B\":{\"enum\":[\"b\\n\"]}}}}
from-json|0|entity B tags {␤  \"a b\": __cedar::Long,␤};␤␤entity T;␤||{\"\":{\"actions\":{},\"entityTypes\":{\"B\":{\"\
tags\":{\"attributes\":{\"a b\":{\"name\":\"__cedar::Long\",\"type\":\"EntityOrCommon\"}},\"type\":\"Record\"}},\"T\":\
{}}},\"N::M\":{\"actions\":{},\"commonTypes\":{\"C\":{\"element\":{\"name\":\"String\",\"type\":\"EntityOrCommon\"},\"\
type\":\"Set\"},\"U\":{\"name\":\"Long\",\"type\":\"EntityOrCommon\"}},\"entityTypes\":{}}}
from-json|0|entity B;␤␤entity T;␤␤action \"a\";␤||{\"\":{\"actions\":{\"a\":{\"appliesTo\":{\"principalTypes\":[],\"re\
sourceTypes\":[]}}},\"entityTypes\":{\"B\":{},\"T\":{}}},\"M\":{\"actions\":{},\"entityTypes\":{}}}
from-json|0|entity C = {␤  x: C,␤};␤||{\"\":{\"actions\":{},\"commonTypes\":{\"B\":{\"name\":\"ipaddr\",\"type\":\"Ent\
ityOrCommon\"}},\"entityTypes\":{\"C\":{\"shape\":{\"attributes\":{\"x\":{\"name\":\"C\",\"type\":\"EntityOrCommon\"}}\
,\"type\":\"Record\"}}}}}
from-json|0|entity C enum [\"a\"];␤␤external action \"c\";␤␤action \"d e\";␤||{\"\":{\"actions\":{\"c\":{\"external\":\
true},\"d e\":{\"appliesTo\":{\"principalTypes\":[],\"resourceTypes\":[]}}},\"entityTypes\":{\"C\":{\"enum\":[\"a\"]}}\
}}
from-json|0|entity C in [C];␤␤entity U enum [\"a\"];␤␤namespace M {␤  action \"c\";␤}␤||{\"\":{\"actions\":{},\"entity\
Types\":{\"C\":{\"memberOfTypes\":[\"C\"]},\"U\":{\"enum\":[\"a\"]}}},\"M\":{\"actions\":{\"c\":{\"appliesTo\":{\"prin\
cipalTypes\":[],\"resourceTypes\":[]}}},\"entityTypes\":{}}}
from-json|0|entity Set enum [\"a\"];␤||{\"\":{\"actions\":{},\"commonTypes\":{\"entity\":{\"name\":\"Bool\",\"type\":\
\"EntityOrCommon\"}},\"entityTypes\":{\"Set\":{\"enum\":[\"a\"]}}}}
from-json|0|entity T = {␤  w: __cedar::ipaddr,␤} tags {␤  w: __cedar::Long,␤};␤||{\"\":{\"actions\":{},\"entityTypes\"\
:{\"T\":{\"shape\":{\"attributes\":{\"w\":{\"name\":\"ipaddr\",\"type\":\"EntityOrCommon\"}},\"type\":\"Record\"},\"ta\
gs\":{\"attributes\":{\"w\":{\"name\":\"Long\",\"type\":\"EntityOrCommon\"}},\"type\":\"Record\"}}}},\"M\":{\"actions\
\":{},\"entityTypes\":{}},\"N\":{\"actions\":{},\"entityTypes\":{}}}
from-json|1||error: wrong type of value for `entityTypes`␤|{\"M\":{\"actions\":{},\"entityTypes\":{}},\"N\":{\"actions\
\":{\"c\":{\"external\":true}},\"entityTypes\":\"A::B\"}}
from-json|1||error: wrong type of value for `actions`␤|{\"M\":{\"actions\":\"Long\",\"commonTypes\":{\"Action\":{\"nam\
e\":\"ipaddr\",\"type\":\"EntityOrCommon\"}},\"entityTypes\":{\"B\":{},\"U\":{\"tags\":{\"attributes\":{},\"type\":\"R\
ecord\"}}}},\"N::M\":{\"actions\":{},\"entityTypes\":{}}}
from-json|1||error: invalid namespace `in`: the word `in` is reserved␤|{\"in\":{\"actions\":{},\"entityTypes\":{\"A\":\
{\"tags\":{\"attributes\":{},\"type\":\"Record\"}},\"B\":{\"external\":true}}}}
from-json|1||error: wrong type of value for `commonTypes`␤|{\"N\":{\"actions\":{},\"commonTypes\":[],\"entityTypes\":{\
\"T\":{\"enum\":[\"b\\n\"]}}}}
from-json|1||error: wrong type of value for `type`␤|{\"\":{\"actions\":{\"b\":{\"appliesTo\":{\"principalTypes\":[],\"\
resourceTypes\":[]}}},\"commonTypes\":{\"U\":{\"name\":\"decimal\",\"type\":\"EntityOrCommon\"}},\"entityTypes\":{\"A\
\":{\"tags\":{\"name\":\"U\",\"type\":\"EntityOrCommon\"}},\"B\":{\"tags\":{\"name\":\"U\",\"type\":\"EntityOrCommon\"\
}},\"type\":\"Long\"}}}
from-json|1||error: missing field `entityTypes`␤|{\"N\":{\"actions\":{}}}
from-json|1||error: unknown field `N::`␤|{\"M\":{\"actions\":{},\"entityTypes\":{}},\"N::M\":{\"actions\":{},\"entityT\
ypes\":{\"T\":{\"N::\":[\"b\\n\"]}}}}
from-json|0|namespace N {␤  external entity C in [N::U];␤␤  entity T;␤␤  entity U;␤}␤||{\"M\":{\"actions\":{},\"entity\
Types\":{}},\"N\":{\"actions\":{},\"entityTypes\":{\"C\":{\"external\":true,\"memberOfTypes\":[\"U\"]},\"T\":{},\"U\":\
{}}}}
from-json|1||error: missing field `type`␤|{\"M\":{\"actions\":{},\"entityTypes\":{}},\"N\":{\"actions\":{\"a\":{\"exte\
rnal\":true}},\"commonTypes\":{\"C\":{\"name\":\"decimal\"}},\"entityTypes\":{}}}
from-json|1||error: unknown field `in`␤|{\"\":{\"entityTypes\":{\"B\":{\"external\":true}},\"in\":{}},\"M\":{\"actions\
\":{\"a\":{\"external\":true},\"b\":{\"appliesTo\":{\"principalTypes\":[],\"resourceTypes\":[]}}},\"commonTypes\":{\"A\
\":{\"attributes\":{},\"type\":\"Record\"}},\"entityTypes\":{}}}
from-json|1||error: invalid id `in`: the word `in` is reserved␤|{\"\":{\"actions\":{\"a\":{\"appliesTo\":{\"principalT\
ypes\":[],\"resourceTypes\":[]}}},\"entityTypes\":{\"B\":{},\"in\":{}}},\"M\":{\"actions\":{},\"entityTypes\":{}}}
from-json|1||error: unknown field `in`␤|{\"\":{\"actions\":{\"a\":{\"appliesTo\":{\"principalTypes\":[],\"resourceType\
s\":[]}}},\"entityTypes\":{\"B\":{},\"T\":{}}},\"M\":{\"actions\":{},\"in\":{}}}
from-json|0|namespace N::M {␤  entity A;␤␤  entity C in [N::M::A];␤}␤||{\"N\":{\"actions\":{},\"entityTypes\":{}},\"N:\
:M\":{\"actions\":{},\"commonTypes\":{\"B\":{\"attributes\":{},\"type\":\"Record\"}},\"entityTypes\":{\"A\":{},\"C\":{\
\"memberOfTypes\":[\"A\"]}}}}
from-json|0|external entity C;␤||{\"\":{\"actions\":{},\"entityTypes\":{\"C\":{\"external\":true}}}}
from-json|1||error: unknown field `Bool`␤|{\"\":{\"actions\":{},\"entityTypes\":{\"T\":{\"shape\":{\"attributes\":{\"w\
\":{\"name\":\"ipaddr\",\"type\":\"EntityOrCommon\"}},\"type\":\"Record\"},\"tags\":{\"attributes\":{\"w\":{\"name\":\
\"Long\",\"type\":\"EntityOrCommon\"}},\"type\":\"Record\"}}}},\"M\":{\"actions\":{},\"entityTypes\":{}},\"N\":{\"acti\
ons\":{},\"Bool\":{}}}
from-json|1||error: missing field `attributes`␤|{\"M\":{\"actions\":{},\"commonTypes\":{\"B\":{\"attributes\":{\"z\":{\
\"name\":\"decimal\",\"type\":\"EntityOrCommon\"}},\"type\":\"Record\"}},\"entityTypes\":{\"C\":{\"tags\":{\"attribute\
s\":{},\"type\":\"Record\"}},\"T\":{\"tags\":{\"type\":\"Record\"}}}}}
from-json|1||error: missing field `actions`␤|{\"N\":{\"entityTypes\":{}}}
from-json|0|namespace N {␤  entity A in [N::B];␤␤  entity B in [N::B];␤}␤␤namespace N::M {␤  action \"d e\";␤}␤||{\"N\
\":{\"actions\":{},\"entityTypes\":{\"A\":{\"memberOfTypes\":[\"B\"]},\"B\":{\"memberOfTypes\":[\"B\"]}},\"annotations\
\":{}},\"N::M\":{\"actions\":{\"d e\":{\"appliesTo\":{\"principalTypes\":[],\"resourceTypes\":[]}}},\"entityTypes\":{}\
}}
from-json|1||error: invalid namespace `A B`: unexpected token `B`␤|{\"A B\":{\"actions\":{},\"entityTypes\":{\"A\":{\"\
tags\":{\"name\":\"String\",\"type\":\"EntityOrCommon\"}},\"T\":{\"tags\":{\"name\":\"String\",\"type\":\"EntityOrComm\
on\"}}}}}
from-json|1||error: failed to resolve type: T␤|{\"M\":{\"actions\":{},\"entityTypes\":{\"B\":{\"memberOfTypes\":[\"T\"\
]}}},\"N::M\":{\"actions\":{},\"entityTypes\":{}}}
from-json|1||error: invalid namespace `__cedar`: the word `__cedar` is reserved␤|{\"\":{\"actions\":{},\"entityTypes\"\
:{\"C\":{\"external\":true}}},\"__cedar\":{\"actions\":{},\"entityTypes\":{}}}
from-json|1||error: invalid id `A B`: unexpected token `B`␤|{\"N::M\":{\"actions\":{},\"entityTypes\":{\"U\":{},\"A B\
\":{}}}}
from-json|1||error: failed to resolve type: B␤|{\"N\":{\"actions\":{},\"entityTypes\":{\"C\":{},\"Set\":{\"external\":\
true,\"memberOfTypes\":[\"B\"]}}}}
from-json|1||error: failed to resolve type: Extension␤|{\"\":{\"actions\":{},\"commonTypes\":{\"U\":{\"name\":\"A\",\"\
type\":\"EntityOrCommon\"}},\"entityTypes\":{\"A\":{\"memberOfTypes\":[\"Extension\"]}}},\"N\":{\"actions\":{\"b\":{\"\
external\":true}},\"entityTypes\":{}}}
from-json|1||error: invalid namespace `A B`: unexpected token `B`␤|{\"N\":{\"actions\":{},\"entityTypes\":{}},\"A B\":\
{\"actions\":{},\"entityTypes\":{\"U\":{}}}}
from-json|1||error: failed to resolve type: Entity␤|{\"N\":{\"actions\":{},\"entityTypes\":{\"B\":{\"external\":true,\
\"memberOfTypes\":[\"Entity\"]},\"C\":{}}}}
from-json|1||error: failed to resolve type: A::B␤|{\"\":{\"actions\":{},\"commonTypes\":{\"U\":{\"name\":\"A::B\",\"ty\
pe\":\"EntityOrCommon\"}},\"entityTypes\":{\"T\":{\"tags\":{\"attributes\":{\"a b\":{\"name\":\"String\",\"required\":\
false,\"type\":\"EntityOrCommon\"},\"y\":{\"name\":\"String\",\"type\":\"EntityOrCommon\"}},\"type\":\"Record\"}}}}}
from-json|1||error: failed to resolve type: Entity␤|{\"\":{\"actions\":{},\"commonTypes\":{\"U\":{\"name\":\"decimal\"\
,\"type\":\"EntityOrCommon\"}},\"entityTypes\":{\"T\":{\"tags\":{\"attributes\":{\"a b\":{\"name\":\"String\",\"requir\
ed\":false,\"type\":\"EntityOrCommon\"},\"y\":{\"name\":\"Entity\",\"type\":\"EntityOrCommon\"}},\"type\":\"Record\"}}\
}}}
from-json|1||error: failed to resolve type: String␤|{\"N\":{\"actions\":{},\"entityTypes\":{\"C\":{\"tags\":{\"name\":\
\"U\",\"type\":\"EntityOrCommon\"}},\"U\":{\"shape\":{\"attributes\":{\"w\":{\"name\":\"String\",\"type\":\"Entity\"}}\
,\"type\":\"Record\"},\"tags\":{\"name\":\"String\",\"type\":\"EntityOrCommon\"}}}}}
from-json|1||error: invalid id `in`: the word `in` is reserved␤|{\"N\":{\"actions\":{},\"entityTypes\":{\"T\":{\"tags\
\":{\"name\":\"String\",\"type\":\"EntityOrCommon\"}},\"in\":{\"tags\":{\"name\":\"String\",\"type\":\"EntityOrCommon\
\"}}}}}
from-json|1||error: invalid id `N::`: unexpected token `::`␤|{\"N\":{\"actions\":{},\"entityTypes\":{\"C\":{\"enum\":[\
\"b\\n\"]},\"U\":{\"memberOfTypes\":[\"U\"],\"tags\":{\"name\":\"Bool\",\"type\":\"EntityOrCommon\"}},\"N::\":{\"tags\
\":{\"element\":{\"name\":\"A\",\"type\":\"EntityOrCommon\"},\"type\":\"Set\"}}}}}
from-json|1||error: failed to resolve type: A::B␤|{\"M\":{\"actions\":{},\"entityTypes\":{\"B\":{\"enum\":[\"a\"]}}},\
\"N::M\":{\"actions\":{},\"commonTypes\":{\"U\":{\"name\":\"A::B\",\"type\":\"EntityOrCommon\"}},\"entityTypes\":{}}}
from-json|1||error: invalid namespace `A B`: unexpected token `B`␤|{\"M\":{\"actions\":{},\"entityTypes\":{}},\"A B\":\
{\"actions\":{},\"entityTypes\":{\"A\":{\"enum\":[\"b\\n\"]},\"C\":{\"memberOfTypes\":[\"C\"],\"shape\":{\"attributes\
\":{\"y\":{\"name\":\"A\",\"type\":\"EntityOrCommon\"}},\"type\":\"Record\"}}}}}
from-json|1||error: failed to resolve type: N::B␤|{\"N\":{\"actions\":{},\"entityTypes\":{\"C\":{\"memberOfTypes\":[\"\
N::B\"],\"tags\":{\"name\":\"Long\",\"type\":\"EntityOrCommon\"}}}},\"N::M\":{\"actions\":{},\"entityTypes\":{}}}
from-json|1||error: failed to resolve type: Set␤|{\"N\":{\"actions\":{},\"entityTypes\":{\"A\":{\"memberOfTypes\":[\"T\
\"]},\"T\":{\"memberOfTypes\":[\"Set\"]}}}}
from-json|1||error: failed to resolve type: A␤|{\"M\":{\"actions\":{\"b\":{\"appliesTo\":{\"principalTypes\":[\"A\"],\
\"resourceTypes\":[]}}},\"entityTypes\":{\"T\":{\"enum\":[\"a\"]}}}}
from-json|1||error: invalid namespace `__cedar`: the word `__cedar` is reserved␤|{\"N::M\":{\"actions\":{},\"entityTyp\
es\":{\"A\":{}}},\"__cedar\":{\"actions\":{\"a\":{\"appliesTo\":{\"principalTypes\":[],\"resourceTypes\":[]}}},\"entit\
yTypes\":{}}}
from-json|1||error: failed to resolve type: T␤|{\"N::M\":{\"actions\":{},\"commonTypes\":{\"C\":{\"name\":\"T\",\"type\
\":\"EntityOrCommon\"}},\"entityTypes\":{\"U\":{\"external\":true,\"memberOfTypes\":[\"U\"]}}}}
from-json|1||error: failed to resolve type: x␤|{\"M\":{\"actions\":{\"a\":{\"external\":true},\"c\":{\"external\":true\
}},\"commonTypes\":{\"A\":{\"name\":\"x\",\"type\":\"EntityOrCommon\"}},\"entityTypes\":{}},\"N::M\":{\"actions\":{},\
\"entityTypes\":{}}}
from-deprecated|1||error: failed to resolve type: Set␤|{\"\":{\"entityTypes\":{\"A\":{\"shape\":{\"type\":\"Record\",\
\"attributes\":{\"s\":{\"type\":\"Set\"}}}}},\"actions\":{}}}
from-deprecated|0|entity A = {␤  x: __cedar::Long,␤};␤||{\"\":{\"entityTypes\":{\"A\":{\"shape\":{\"type\":\"Record\",\
\"attributes\":{\"x\":{\"type\":\"Long\",\"extra\":1}}}}},\"actions\":{}}}
from-deprecated|1||error: failed to resolve type: Set␤|{\"\":{\"entityTypes\":{\"A\":{\"shape\":{\"type\":\"Record\",\
\"attributes\":{\"x\":{\"type\":\"Set\",\"element\":{\"type\":\"Long\"},\"extra\":1}}}}},\"actions\":{}}}
from-deprecated|1||error: missing field `resourceTypes`␤|{\"\":{\"entityTypes\":{},\"actions\":{\"a\":{\"appliesTo\":{\
\"principalTypes\":[]}}}}}
from-deprecated|0|entity A;␤␤action \"a\";␤||{\"\":{\"entityTypes\":{\"A\":{}},\"actions\":{\"a\":{\"appliesTo\":{\"re\
sourceTypes\":[\"A\"],\"principalTypes\":[]}}}}}
from-deprecated|1||error: invalid namespace `1`: unexpected token `1`␤|{\"1\":{\"entityTypes\":{},\"actions\":{}}}
from-deprecated|1||error: missing field `entityTypes`␤  help: JSON formatted schema must specify a namespace. If you w\
ant to use the empty namespace, explicitly specify it with `{ \"\": {..} }`␤|{\"entityTypes\":{},\"actions\":{}}
from-deprecated|1||error: the text is not JSON␤  help: this API was expecting a schema in the JSON format; did you mea\
n to use a different function, which expects the Cedar schema format?␤|entity A;
from-deprecated|1||error: unsupported feature used in schema␤|{\"\":{\"entityTypes\":{},\"actions\":{\"a\":{\"attribut\
es\":{\"x\":1,\"y\":2}}}}}
from-deprecated|0|namespace N {␤  entity G;␤␤  entity U in [N::G] = {␤    b?: __cedar::Bool,␤    e: N::G,␤    i: __ced\
ar::ipaddr,␤    r: {    },␤    s: Set<__cedar::String>,␤    t: __cedar::Long,␤  };␤␤  action \"all\";␤␤  action \"do\
\" in [N::Action::\"all\"] appliesTo {␤    principal: [N::U],␤    resource: [N::G],␤    context: {␤      k: __cedar::Lon\
g,␤    },␤  };␤}␤||{\"N\":{\"entityTypes\":{\"U\":{\"memberOfTypes\":[\"G\"],\"shape\":{\"type\":\"Record\",\"attribut\
es\":{\"b\":{\"type\":\"Boolean\",\"required\":false},\"e\":{\"type\":\"Entity\",\"name\":\"G\"},\"i\":{\"type\":\"Ext\
ension\",\"name\":\"ipaddr\"},\"r\":{\"type\":\"Record\",\"attributes\":{}},\"s\":{\"type\":\"Set\",\"element\":{\"typ\
e\":\"String\"}},\"t\":{\"type\":\"T\"}}}},\"G\":{}},\"actions\":{\"do\":{\"memberOf\":[{\"id\":\"all\"}],\"appliesTo\
\":{\"resourceTypes\":[\"G\"],\"principalTypes\":[\"U\"],\"context\":{\"type\":\"C\"}}},\"all\":{}},\"commonTypes\":{\
\"T\":{\"type\":\"Long\",\"further\":[]},\"C\":{\"type\":\"Record\",\"attributes\":{\"k\":{\"type\":\"T\"}}}}}}
from-deprecated|1||error: the type `Action` of the empty namespace is used in namespace `N` by entity type `E`, where \
it would be read as `N::Action`␤|{\"\":{\"entityTypes\":{},\"actions\":{\"z\":{}},\"commonTypes\":{\"T\":{\"type\":\"E\
ntity\",\"name\":\"Action\"}}},\"N\":{\"entityTypes\":{\"E\":{\"shape\":{\"type\":\"Record\",\"attributes\":{\"x\":{\"\
type\":\"T\"}}}}},\"actions\":{\"a\":{}}}}
from-deprecated x|2||usage: cedar_schema_tool COMMAND [NAME..]␤|{}
"
}
