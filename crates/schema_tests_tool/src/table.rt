// Inputs, and how a second program, which was written from the definitions in Python, answers them. ␤ stands for a line feed.

/// Texts, and what is printed when they are recovered: a line is what is printed, then behind `|` the text; where the text is refused, what is told of it.
pub fn recovered_lines() -> &'static str {
    "\
|
entity A in [A];␤|entity A in A;
entity A in [A, B, C];␤␤entity B in [A, B, C];␤␤entity C;␤|entity B in [A, C]; entity A in B; entity C;
entity A in [A];␤|entity A in [A];
entity a in [b];␤␤entity b;␤|entity\u{3000}b;\u{a0}entity a in [b,];
action \"a\";␤|action a;
entity C in [N::A, N::B];␤␤namespace N {␤  entity A;␤␤  entity B in [N::A];␤}␤|namespace N { entity A; } namespace N { entity B in A; } entity C in N::B;
error: `A` is declared twice␤  at 21..22␤  at 47..48␤|namespace N { entity A; } namespace N { entity A; }
|namespace N {} namespace N {}
entity C;␤␤namespace N {␤  entity A = {␤    x: N::B,␤  };␤␤  entity B;␤}␤|namespace N { entity A { x: B }; } entity C; namespace N { entity B; }
namespace M {␤  entity T;␤}␤␤namespace N {␤  entity E = {␤    t: M::T,␤  };␤␤  action \"a\";␤␤  action \"b\" in [N::Action::\"a\"];␤}␤|@a(\"1\") namespace N { action a; } namespace M { entity T; } @a(\"2\") @b namespace N { action b in a; type T = M::T; entity E { t: T }; }
error: `A` is declared twice␤  at 7..8␤  at 17..18␤|entity A; entity A;
error: failed to resolve type: X␤  at 12..13␤|entity A in X;
error: unexpected end of input␤  at 8..8: expected `in`, `tags`, `enum`, `,`, `;`, `{` or `=`␤|entity A
|// nothing␤
entity E enum [\"a\", \"😀é\\\"\"];␤|entity E enum [\"a\", \"\\u{1F600}é\\\"\"];
namespace PhotoApp {␤  entity Album in [PhotoApp::Album];␤␤  entity Photo in [PhotoApp::Album] = {␤    owner: PhotoApp::User,␤    place: {␤      x: __cedar::decimal,␤      y: __cedar::decimal,␤    },␤  } tags Set<__cedar::String>;␤␤  entity User in [PhotoApp::UserGroup] = {␤    contact: {␤      ref: {␤        age?: __cedar::Long,␤        name: __cedar::String,␤      },␤      tags: Set<__cedar::String>,␤    },␤    seen: __cedar::datetime,␤  };␤␤  entity UserGroup;␤␤  action \"all\";␤␤  action \"edit\" in [PhotoApp::Action::\"all\"] appliesTo {␤    principal: [PhotoApp::User, PhotoApp::UserGroup],␤    resource: [PhotoApp::Photo],␤    context: {␤      ip?: __cedar::ipaddr,␤    },␤  };␤␤  action \"view\" in [PhotoApp::Action::\"all\"] appliesTo {␤    principal: [PhotoApp::User, PhotoApp::UserGroup],␤    resource: [PhotoApp::Photo],␤    context: {␤      ip?: __cedar::ipaddr,␤    },␤  };␤}␤|namespace PhotoApp { type Person = { name: String, age?: Long }; type Contact = { ref: Person, tags: Set<String> }; entity User in [UserGroup] { contact: Contact, seen: datetime }; entity UserGroup; entity Photo in Album { owner: User, place: { x: decimal, y: decimal } } tags Set<String>; entity Album in Album; action view, edit in [all] appliesTo { principal: [User, UserGroup], resource: Photo, context: { ip?: ipaddr } }; action all; }
namespace M {␤  external action \"a\";␤}␤␤namespace N::M {␤  entity B enum [\"a\"];␤}␤|namespace M { external action a; type B = __cedar::Long; } namespace N::M { entity B enum [\"a\"]; }
namespace N::M {␤  entity A;␤}␤|namespace N::M { entity A; }
namespace N::M {␤  entity C enum [\"a\"];␤}␤| namespace N::M { entity C enum [\"a\"]; }
namespace N::M {␤  entity C = {␤    w?: __cedar::String,␤  };␤}␤|namespace N::M { entity C = {w?: String}; }
entity B;␤␤entity C in [C] tags {␤  z: C,␤};␤␤entity U = {␤  y: __cedar::ipaddr,␤};␤|namespace N {  } entity C in C {} tags {z: C}; entity U {y: ipaddr}; entity B = {};
action \"c\";␤␤action \"d e\";␤|action c; action \"d e\";
namespace N {␤  entity A enum [\"b\\n\"];␤␤  entity C;␤␤  entity U enum [\"a\"];␤}␤|namespace N { entity U enum [\"a\"]; entity C; entity A enum [\"b\\n\"]; } 
entity T enum [\"a\"];␤|namespace N::M {  } entity T enum [\"a\"]; namespace N {  }
namespace N::M {␤  entity B;␤␤  entity C = {␤    x: N::M::C,␤  };␤}␤|namespace N::M { entity B {}; entity C {x: C}; }
namespace N::M {␤  entity C = {␤    \"a b\": __cedar::String,␤    z: __cedar::Long,␤  } tags {␤  \"a b\": __cedar::Long,␤  w: N::M::C,␤};␤␤  action \"a\";␤}␤|namespace N::M { action a; entity C = {\"a b\": String, z: Long} tags {w: C, \"a b\": Long}; }
namespace N::M {␤  entity C enum [\"b\\n\"];␤␤  action \"b\";␤}␤|namespace N::M { action b; entity C enum [\"b\\n\"]; }
entity U tags Set<__cedar::Long>;␤␤namespace M {␤  entity C = {␤    \"a b\"?: __cedar::String,␤    x: {␤      \"a b\": __cedar::Long,␤      w?: __cedar::decimal,␤    },␤  };␤}␤|entity U in [] tags Set<Long>; namespace M { entity C in [] = {\"a b\"?: String, x: {\"a b\": Long, w?: decimal}}; }
namespace N {␤  entity A enum [\"b\\n\"];␤}␤␤namespace N::M {␤  entity T;␤}␤|namespace N::M { entity T; } namespace M {  } namespace N { entity A enum [\"b\\n\"]; }
namespace N::M {␤  entity A;␤␤  external entity T in [N::M::T];␤}␤|namespace N::M { entity A = {}; external entity T in T; }
namespace M {␤  entity B enum [\"b\\n\"];␤}␤|namespace N {  } namespace M { entity B enum [\"b\\n\"]; }
namespace N::M {␤  entity A;␤␤  entity B;␤␤  entity C = {␤    \"a b\": __cedar::decimal,␤  };␤␤  action \"a\" appliesTo {␤    principal: [N::M::C],␤    resource: [N::M::A, N::M::C],␤    context: {},␤  };␤}␤|namespace N::M { action a appliesTo { principal: C, resource: [C, A] }; entity C {\"a b\": String, \"a b\": decimal}; entity A, B; }
namespace M {␤  entity C;␤}␤␤namespace N {␤  entity T;␤␤  entity U;␤}␤|namespace M { entity C = {}; } namespace N { entity U; type B = String; entity T; }
namespace M {␤  entity C;␤␤  entity U;␤␤  external action \"c\";␤}␤|namespace M { entity U, C; external action c; }
entity C enum [\"b\\n\"];␤|entity C enum [\"b\\n\"]; type A = Bool;
entity C = {␤  x?: __cedar::Long,␤};␤␤external action \"c\";␤|external action c; type A = Long; entity C {x?: Long};
namespace N {␤  external action \"b\";␤}␤|namespace N { external action b; }
namespace N::M {␤  external entity C in [N::M::C];␤}␤|namespace N::M { external entity C in [C]; }
namespace N::M {␤  entity T;␤␤  action \"d e\";␤}␤|namespace N::M { entity T {}; action \"d e\"; type B = String; }
external action \"d e\";␤|external action \"d e\";
namespace M {␤  entity A in [M::U] = {␤    \"a b\": __cedar::Long,␤  };␤␤  entity C enum [\"a\"];␤␤  entity U tags __cedar::ipaddr;␤}␤| namespace M { entity A in U {\"a b\": Long}; entity U tags ipaddr; entity C enum [\"a\"]; }
namespace M {␤  external entity C;␤␤  entity T = {␤    y: Set<__cedar::Long>,␤  };␤␤  entity U enum [\"a\"];␤}␤|namespace M { entity T = {y: decimal, y: Set<Long>}; external entity C; entity U enum [\"a\"]; }
namespace N::M {␤  external action \"c\";␤}␤|namespace N::M { external action c; }
namespace M {␤  entity T;␤␤  entity entity;␤␤  action \"c\";␤}␤|namespace M { action c; entity T, entity; } 
namespace N::M {␤  entity B = {␤    \"a b\": Set<{    }>,␤    z?: __cedar::decimal,␤  };␤␤  entity T = {␤    \"a b\": Set<{    }>,␤    z?: __cedar::decimal,␤  };␤}␤|namespace N::M { entity T, B = {z?: decimal, \"a b\": Set<{}>}; } namespace M {  }
namespace N {␤  entity T = {␤    w: {    },␤  };␤}␤|namespace N { type B = Bool; entity T {w: Long, w: {}}; } namespace M {  } namespace N::M {  }
error: `A` is declared twice␤  at 37..38␤  at 61..62␤|namespace N::M { type B = {}; entity A = {}; external entity A; }
error: `B` is declared twice␤  at 24..25␤  at 44..45␤|namespace N::M { entity B = {z?: U}; entity B {\"a b\": Set<Bool>} tags Long; }
error: `U` is declared twice␤  at 7..8␤  at 27..28␤|entity U in T = {}; entity U, C; namespace M {  }
error: `a` is declared twice␤  at 21..22␤  at 108..109␤|namespace N { action a appliesTo { principal: [C, U], resource: [T], context: N::B }; entity B in T; action a; }
error: `b` is declared twice␤  at 21..22␤  at 71..72␤|namespace M { action b appliesTo { principal: T, resource: B }; action b; }
error: `d e` is declared twice␤  at 33..38␤  at 47..52␤|namespace N { type A = A; action \"d e\"; action \"d e\"; } 
error: cycle in common type references containing `N::M::B`␤  at 18..40␤| namespace N::M { type B = {x?: Set<B>}; } namespace N {  }
error: definition of `N::M::T` illegally shadows the existing definition of `T`␤  at 48..68␤  help: try renaming one of the definitions, or moving `T` to a different namespace␤|type U = Long; entity A, T {}; namespace N::M { entity T enum [\"a\"]; action b; }
error: definition of `N::T` illegally shadows the existing definition of `T`␤  at 68..82␤  help: try renaming one of the definitions, or moving `T` to a different namespace␤|type T = decimal; external entity C; entity U in [C]; namespace N { type T = Long; } namespace M {  }
error: failed to resolve type: C␤  at 36..37␤|namespace N::M { entity B; type T = C; } namespace M { entity U enum [\"a\"]; }
error: failed to resolve type: M::A␤  at 26..30␤|namespace N::M { type U = M::A; }
error: failed to resolve type: N::B␤  at 45..49␤|namespace M { type U = Set<{}>; entity T {y: N::B, x: Set<U>}; }
error: failed to resolve type: Set␤  at 37..40␤|namespace M { entity B; type A = Set<Set>; } namespace N {  }
error: failed to resolve type: T␤  at 29..30␤|namespace N::M { entity U in T {}; }
error: failed to resolve type: U␤  at 23..24␤|action \"d e\"; type A = U;
error: failed to resolve type: __cedar::X␤  at 29..39␤|entity T; entity B in T {y?: __cedar::X, x?: ipaddr}; type U = Long;
error: failed to resolve types: A, U␤  at 47..48␤  at 37..38␤|namespace N::M { entity T in T = {x: U, \"a b\": A}; }
error: failed to resolve types: B, B␤  at 59..60␤  at 72..73␤|namespace M { entity U {}; action a appliesTo { principal: B, resource: B }; }
error: failed to resolve types: C, N::M::U␤  at 62..63␤  at 46..53␤| namespace M { type B = {w?: {y: Bool, x: {z: N::M::U, \"a b\": C}}}; entity A; } namespace N {  }
error: failed to resolve types: M::A, U␤  at 46..50␤  at 62..63␤|namespace N { action c appliesTo { principal: M::A, resource: U }; }
error: failed to resolve types: N::M::C, N::M::C␤  at 90..97␤  at 90..97␤|namespace N { type C = {}; entity T {z: U, x: Long}; entity U, B = {\"a b\"?: {x: Bool, w?: N::M::C}}; }
error: failed to resolve types: T, A, B, T␤  at 84..85␤  at 33..34␤  at 36..37␤  at 84..85␤|namespace N::M { entity U in [U, A, B] {}; type B = ipaddr; entity entity, C in [U, T]; }
error: failed to resolve types: U, B␤  at 72..73␤  at 87..88␤|namespace M { action a in b; action \"d e\" in [] appliesTo { principal: [U], resource: [B] }; } 
error: for action `a`, `principal` is `[]`, which is invalid␤  at 21..22: for this action␤  at 35..48: must not be `[]`␤  help: Every action must define both `principal` and `resource` targets, and the `principal` and `resource` lists must not be `[]`.␤|namespace N { action a appliesTo { principal: [], resource: B, context: {x: ipaddr, \"a b\"?: Long} }; }
error: for action `c`, `resource` is `[]`, which is invalid␤  at 38..39: for this action␤  at 77..89: must not be `[]`␤  help: Every action must define both `principal` and `resource` targets, and the `principal` and `resource` lists must not be `[]`.␤|namespace M {  } namespace N { action c appliesTo { principal: [T, N::M::C], resource: [], context: {} }; }
error: for action `d e`, `resource` is `[]`, which is invalid␤  at 52..57: for this action␤  at 84..96: must not be `[]`␤  help: Every action must define both `principal` and `resource` targets, and the `principal` and `resource` lists must not be `[]`.␤|type T = Set<{w: {}, x: Long}>; entity U, C; action \"d e\" appliesTo { principal: T, resource: [], context: {z: U} };
error: undeclared action: Action::\"d e\"␤  help: any actions appearing as parents need to be declared as actions␤|namespace M { type T = Set<{\"a b\": {}}>; action c; action a in \"d e\"; } 
error: undeclared action: M::Action::\"a\"␤  at 62..71␤  help: any actions appearing as parents need to be declared as actions␤|namespace N::M {  } namespace N { entity T = {}; action c in [M::Action::\"a\"]; }
"
}

/// Runs: the words, the exit code, the output, the error output and the input, with `|` between.
pub fn run_lines() -> &'static str {
    "\
check|0|0 entity types, 0 actions␤||
check|0|3 entity types, 2 actions␤||namespace N { entity A, B; action a; } namespace M { external action a; } entity C enum [\"x\"];
check|1||error: failed to resolve type: B␤  at 12..13␤|entity A in B;
check|0|1 entity types, 0 actions␤|warning: The name `decimal` shadows a builtin Cedar name. You'll have to refer to the builtin as `__cedar::decimal`.␤warning: The name `ipaddr` shadows a builtin Cedar name. You'll have to refer to the builtin as `__cedar::ipaddr`.␤|entity ipaddr; type decimal = Long;
check|0|12 entity types, 0 actions␤||entity A, B, C, D, E, F, G, H, I, J, K, L;
recover|0|entity duration;␤␤namespace N {␤  entity Long;␤␤  entity T = {␤    x: __cedar::ipaddr,␤  };␤}␤|warning: The name `duration` shadows a builtin Cedar name. You'll have to refer to the builtin as `__cedar::duration`.␤warning: The common type name T shadows an entity name␤warning: The name `Long` shadows a builtin Cedar name. You'll have to refer to the builtin as `__cedar::Long`.␤|namespace N { entity Long; type T = ipaddr; entity T { x: T }; } entity duration;
recover|0|entity ipaddr;␤|warning: The name `datetime` shadows a builtin Cedar name. You'll have to refer to the builtin as `__cedar::datetime`.␤warning: The common type name ipaddr shadows an entity name␤warning: The name `ipaddr` shadows a builtin Cedar name. You'll have to refer to the builtin as `__cedar::ipaddr`.␤warning: The name `ipaddr` shadows a builtin Cedar name. You'll have to refer to the builtin as `__cedar::ipaddr`.␤|type datetime = Long; type ipaddr = Long; entity ipaddr;
recover|1||error: failed to resolve type: X␤  at 12..13␤|entity A in X; entity ipaddr;
recover|1||error: the type `Action` of the empty namespace is used in namespace `N` by entity type `E`, where it would be read as `N::Action`␤|action z; type T = Action; namespace N { action a; entity E { x: T }; }
recover|0|action \"z\";␤␤namespace N {␤  entity E = {␤    x: Action,␤  };␤}␤||action z; type T = Action; namespace N { entity E { x: T }; }
recover-with|0|entity ipaddr = {␤  x: __cedar::Long,␤};␤||entity ipaddr { x: Long };
recover-with|1||error: failed to resolve type: ipaddr␤  at 14..20␤|entity A { x: ipaddr };
recover-with ipaddr decimal|0|entity A = {␤  x: __cedar::ipaddr,␤  y: __cedar::decimal,␤};␤||entity A { x: ipaddr, y: decimal };
recover-with ipaddr|1||error: failed to resolve type: decimal␤  at 14..21␤|entity A { y: decimal };
recover-with Set|0|entity A = {␤  x: __cedar::Set,␤};␤||entity A { x: Set };
recover-with word|0|entity A = {␤  x: word,␤  y: __cedar::word,␤};␤␤entity word;␤|warning: The name `word` shadows a builtin Cedar name. You'll have to refer to the builtin as `__cedar::word`.␤|entity word; entity A { x: word, y: __cedar::word };
recover-with ipaddr ipaddr|2||usage: cedar_schema_tool COMMAND [NAME..]␤|entity A;
recover-with Long|2||usage: cedar_schema_tool COMMAND [NAME..]␤|entity A;
recover-with __cedar|2||usage: cedar_schema_tool COMMAND [NAME..]␤|entity A;
recover-with A::B|2||usage: cedar_schema_tool COMMAND [NAME..]␤|entity A;
recover-with if|2||usage: cedar_schema_tool COMMAND [NAME..]␤|entity A;
generate 1|0|85 bytes in, 1 entity types, 1 actions, 126 bytes out␤||entity A in B;
generate 2|0|176 bytes in, 2 entity types, 2 actions, 261 bytes out␤||entity A in B;
generate|2||usage: cedar_schema_tool COMMAND [NAME..]␤|entity A;
generate 0|2||usage: cedar_schema_tool COMMAND [NAME..]␤|entity A;
generate 01|2||usage: cedar_schema_tool COMMAND [NAME..]␤|entity A;
generate 4097|2||usage: cedar_schema_tool COMMAND [NAME..]␤|entity A;
generate 4294967297|2||usage: cedar_schema_tool COMMAND [NAME..]␤|entity A;
generate +1|2||usage: cedar_schema_tool COMMAND [NAME..]␤|entity A;
generate -1|2||usage: cedar_schema_tool COMMAND [NAME..]␤|entity A;
generate ١|2||usage: cedar_schema_tool COMMAND [NAME..]␤|entity A;
generate 1 1|2||usage: cedar_schema_tool COMMAND [NAME..]␤|entity A;
recover x|2||usage: cedar_schema_tool COMMAND [NAME..]␤|entity A;
check x|2||usage: cedar_schema_tool COMMAND [NAME..]␤|entity A;
Recover|2||usage: cedar_schema_tool COMMAND [NAME..]␤|entity A;
recover-without|2||usage: cedar_schema_tool COMMAND [NAME..]␤|entity A;
--help|2||usage: cedar_schema_tool COMMAND [NAME..]␤|entity A;
|2||usage: cedar_schema_tool COMMAND [NAME..]␤|entity A;
"
}
