// Texts that were made at random from the grammar's words, those that are valid, and how a second program, which was written
// from the definitions in Python, answers them. ␤ stands for a line feed; a line that ends with a backslash goes on in the next.

/// Texts, and what is printed when they are recovered: a line is what is printed, then behind `|` the text.
pub fn valid_lines() -> &'static str {
    "\
namespace N {␤  entity C enum [\"a\"];␤␤  action \"c\";␤}␤|namespace N::M {  } namespace N { action c; entity C enum [\
\"a\"]; }
namespace M {␤  entity A;␤}␤| namespace M { entity A; }
entity C in [C];␤␤entity U enum [\"a\"];␤␤namespace M {␤  action \"c\";␤}␤|namespace M { action c; } entity U enum [\"\
a\"]; entity C in [C] = {};
namespace N {␤  entity U;␤␤  action \"b\";␤}␤|namespace N { entity U in []; action b; }
namespace N::M {␤  external entity B;␤␤  entity C;␤␤  action \"d e\";␤}␤|namespace M {  } namespace N::M { external en\
tity B; action \"d e\"; entity C; }
entity B = {␤  z: __cedar::Long,␤};␤|entity B in [] = {z: Long}; type T = Long;
namespace N {␤  entity C enum [\"a\"];␤␤  entity T enum [\"b\\n\"];␤}␤|namespace N { entity T enum [\"b\\n\"]; entity \
C enum [\"a\"]; } namespace M {  } namespace N::M {  }
external entity B;␤|external entity B; namespace N::M {  }
namespace N::M {␤  entity A tags __cedar::ipaddr;␤}␤|namespace N { type C = ipaddr; } namespace N::M { entity A tags i\
paddr; type C = {}; } namespace M {  }
entity A = {␤  x: __cedar::Long,␤  y: Set<Set<{  }>>,␤};␤␤entity U = {␤  x: __cedar::Long,␤  y: Set<Set<{  }>>,␤};␤|en\
tity A, U = {x: __cedar::Long, y: Set<Set<{}>>};
namespace N {␤  entity A enum [\"b\\n\"];␤}␤| namespace N { entity A enum [\"b\\n\"]; }
entity C = {␤  x: C,␤};␤|type B = ipaddr; entity C {x: C};
entity B;␤␤entity T;␤␤action \"a\";␤|entity T; entity B {}; action a; namespace M {  }
namespace N::M {␤  entity A;␤␤  action \"c\";␤}␤|namespace N::M { action c; entity A; } namespace N { type C = {y?: St\
ring}; }
namespace N::M {␤  entity U;␤}␤|namespace N::M { entity U; } namespace N {  }
namespace N {␤  external entity B;␤}␤|namespace N { external entity B; }  namespace M {  }
namespace N {␤  action \"a\";␤␤  action \"d e\";␤}␤|namespace N { action a; action \"d e\"; }
namespace M {␤  entity B enum [\"b\\n\"];␤}␤|namespace M { entity B enum [\"b\\n\"]; }
namespace N {␤  entity U enum [\"a\"];␤}␤|namespace N { entity U enum [\"a\"]; type A = String; }
namespace N::M {␤  entity T enum [\"a\"];␤}␤|namespace N::M { entity T enum [\"a\"]; } 
namespace N::M {␤  entity A;␤}␤|namespace N::M { entity A; }
namespace N::M {␤  entity T;␤␤  entity U;␤}␤|namespace N::M { entity U, T = {}; }
namespace M {␤  external entity A;␤}␤␤namespace N {␤  entity A = {␤    w?: __cedar::decimal,␤    x?: __cedar::Long,␤  \
};␤␤  entity C tags __cedar::ipaddr;␤}␤|namespace N { entity A = {x?: Long, w?: decimal}; entity C tags ipaddr; } name\
space M { external entity A; }
namespace N::M {␤  entity B;␤␤  entity T;␤}␤|namespace N {  } namespace N::M { entity T, B = {}; }
namespace N {␤  entity B;␤}␤|namespace N { entity B {}; }
namespace M {␤  entity C;␤␤  entity U;␤␤  external entity entity;␤}␤|namespace N {  } namespace M { external entity en\
tity; entity C, U; }
namespace M {␤  entity T enum [\"a\"];␤}␤|namespace M { entity T enum [\"a\"]; }
entity A in [B] = {␤  \"a b\"?: B,␤};␤␤entity B in [B] = {␤  \"a b\"?: B,␤};␤|entity A, B in [B] {\"a b\"?: B};
namespace N::M {␤  entity C enum [\"b\\n\"];␤}␤|namespace N::M { entity C enum [\"b\\n\"]; }
namespace N::M {␤  action \"b\";␤}␤|namespace N::M { action b; }
entity A enum [\"b\\n\"];␤␤entity C in [A] tags __cedar::String;␤␤namespace M {␤  entity U;␤}␤|namespace M { entity U\
; } entity A enum [\"b\\n\"]; entity C in A tags __cedar::String; namespace N { type U = ipaddr; }
namespace N::M {␤  entity C;␤}␤|namespace N::M { entity C; }
namespace N::M {␤  external action \"d e\";␤}␤|namespace N::M { external action \"d e\"; }
namespace M {␤  entity C;␤}␤|namespace M { entity C in []; }
namespace N::M {␤  entity T enum [\"b\\n\"];␤}␤|namespace M {  } namespace N::M { entity T enum [\"b\\n\"]; }
external entity Set in [Set];␤|external entity Set in Set;
namespace N::M {␤  external entity A;␤␤  entity C in [N::M::A];␤}␤|namespace N::M { entity C in A; external entity A; \
type B = {}; } namespace N {  }
namespace N {␤  entity T;␤␤  external action \"d e\";␤}␤|namespace N { entity T; external action \"d e\"; }
namespace N {␤  entity T = {␤    w: N::T,␤    y: {    },␤  } tags __cedar::Bool;␤␤  external action \"c\";␤}␤|namespac\
e N::M {  } namespace N { entity T = {y: {}, w: T} tags N::B; external action c; type B = Bool; }
namespace M {␤  external action \"d e\";␤}␤|namespace M { external action \"d e\"; }
namespace N {␤  entity A;␤}␤|type B = decimal; namespace N { entity A in []; }
namespace M {␤  entity C tags {};␤␤  entity T tags {};␤}␤|namespace M { type B = {z: decimal}; entity C, T tags {}; }
namespace N::M {␤  external entity T;␤}␤|namespace N::M { external entity T; }
entity U;␤␤namespace M {␤  action \"c\";␤}␤|entity U; namespace M { type C = String; action c; }
namespace M {␤  action \"d e\";␤}␤|namespace M { action \"d e\"; }
external entity C;␤|namespace N::M {  } external entity C;
entity B = {␤  y?: {  },␤};␤␤entity U = {␤  y?: {  },␤};␤|entity U, B in [] {y?: {}};
namespace N {␤  action \"a\";␤}␤␤namespace N::M {␤  entity A;␤}␤|namespace N { action a; } namespace N::M { entity A; \
}
namespace N {␤  external entity C in [N::U];␤␤  entity T;␤␤  entity U;␤}␤|namespace N { external entity C in U; entit\
y T, U; } namespace M {  }
namespace N {␤  external entity B in [N::B];␤␤  entity C;␤}␤|namespace N { entity C = {}; external entity B in B; }
namespace M {␤  action \"b\";␤}␤|namespace M { action b; }
entity B enum [\"b\\n\"];␤|type A = decimal; entity B enum [\"b\\n\"];
action \"c\";␤|action c; namespace M {  }
entity T tags {␤  \"a b\"?: __cedar::String,␤  y: __cedar::String,␤};␤|entity T tags {y: String, \"a b\"?: String}; ty\
pe U = decimal;
namespace M {␤  entity B enum [\"b\\n\"];␤␤  external entity C;␤␤  action \"d e\";␤}␤␤namespace N::M {␤  entity A;␤}␤|\
namespace M { action \"d e\"; entity B enum [\"b\\n\"]; external entity C; } namespace N::M { entity A; }
namespace M {␤  external entity A;␤}␤|namespace M { external entity A; }
namespace M {␤  entity B in [M::B, M::T];␤␤  entity T in [M::B, M::T] = {␤    x: {    },␤  };␤}␤|namespace N::M {  } n\
amespace M { entity T in [B] = {x: {}}; entity B in T = {}; }
namespace N::M {␤  external entity U in [N::M::U];␤}␤|namespace N::M { external entity U in U; type C = ipaddr; } 
entity A enum [\"b\\n\"];␤␤namespace N {␤  action \"a\";␤}␤|namespace N { action a; } entity A enum [\"b\\n\"];
namespace N::M {␤  entity A tags __cedar::String;␤}␤|namespace N::M { entity A tags String; }
namespace M {␤  entity B;␤␤  entity C tags __cedar::String;␤}␤|namespace M { type A = String; entity C = {} tags A; en\
tity B; }
namespace N::M {␤  entity C = {␤    x: __cedar::ipaddr,␤  };␤}␤|namespace N::M { entity C = {x: T}; type T = ipaddr; }
namespace M {␤  entity B enum [\"a\"];␤}␤|namespace N::M { type U = __cedar::Long; } namespace M { entity B enum [\"a\
\"]; }
namespace M {␤  external action \"a\";␤␤  external action \"c\";␤}␤|namespace N::M {  } namespace M { external action \
a; external action c; type A = Long; }
entity U tags U;␤␤namespace N {␤  entity A;␤␤  entity C;␤}␤|entity U tags U; namespace N { entity C, A; } namespace N:\
:M {  }
namespace N::M {␤  external action \"c\";␤}␤|namespace N::M { external action c; } namespace M {  }
namespace N {␤  entity C enum [\"a\"];␤␤  external entity T;␤␤  external action \"c\";␤}␤|namespace M {  } namespace \
N { external action c; entity C enum [\"a\"]; external entity T; }
namespace M {␤  action \"a\";␤}␤␤namespace N {␤  entity A tags {};␤}␤|namespace M { action a; } namespace N { entity \
A tags {}; } namespace N::M {  }
namespace N::M {␤  entity B;␤␤  external entity C;␤␤  entity T;␤}␤|namespace N::M { entity T, B; external entity C; }
namespace M {␤  entity B enum [\"a\"];␤␤  entity U;␤}␤␤namespace N::M {␤  external action \"b\";␤}␤|namespace M { enti\
ty U; entity B enum [\"a\"]; } namespace N::M { external action b; } namespace N {  }
namespace N {␤  external action \"a\";␤}␤|namespace N { external action a; type C = decimal; } namespace M {  } 
namespace M {␤  entity A tags __cedar::Long;␤␤  entity C tags __cedar::Long;␤}␤|namespace M { entity C, A tags Long; t\
ype U = String; }
entity A tags __cedar::decimal;␤␤entity B tags __cedar::decimal;␤␤action \"b\";␤|entity A, B = {} tags U; action b; ty\
pe U = decimal;
namespace N::M {␤  external entity B;␤␤  entity C;␤}␤|namespace N::M { entity C {}; external entity B in []; }
namespace N {␤  entity C = {␤    x: Set<__cedar::Long>,␤  } tags __cedar::Bool;␤␤  action \"d e\";␤}␤|namespace N { en\
tity C in [] {x?: M::T, x: Set<Long>} tags Bool; action \"d e\"; }
namespace N {␤  entity C in [N::C];␤}␤|namespace N { entity C in C = {}; }
namespace N::M {␤  entity A tags {};␤␤  external entity B;␤}␤|namespace N::M { external entity B; entity A tags {}; }
namespace N::M {␤  external entity C;␤␤  action \"b\";␤}␤|namespace N {  } namespace N::M { external entity C; action \
b; }
namespace N {␤  entity A in [N::C] = {␤    z: Set<__cedar::ipaddr>,␤  };␤␤  entity C = {␤    x: __cedar::decimal,␤  };\
␤}␤|namespace N { type B = Long; entity A in N::C {z?: {\"a b\": Set<{}>}, z: Set<ipaddr>}; entity C = {x: decimal}; }
namespace N {␤  entity U;␤␤  action \"b\";␤␤  action \"d e\";␤}␤|namespace M { type T = ipaddr; type U = String; } nam\
espace N { entity U; action \"d e\" in []; action b; }
namespace M {␤  entity A = {␤    y: __cedar::Long,␤  };␤}␤|namespace N::M { type U = Long; } namespace M { type C = {z\
?: {}}; entity A = {y: Long}; }
namespace N {␤  entity U in [N::U];␤}␤|namespace N::M {  } namespace N { entity U in [U]; }
namespace M {␤  entity U in [M::U] tags __cedar::String;␤}␤|namespace M { entity U in U {} tags String; }
namespace N {␤  entity B enum [\"b\\n\"];␤}␤|namespace N::M { type U = {}; } namespace N { entity B enum [\"b\\n\"]; }
namespace M {␤  entity B;␤␤  entity U tags {};␤}␤|namespace N::M {  } namespace M { entity B; type Action = ipaddr; en\
tity U tags {}; }
namespace N {␤  entity A enum [\"b\\n\"];␤␤  entity C in [N::C] = {␤    y: N::A,␤  };␤}␤|namespace M {  } namespace N \
{ entity A enum [\"b\\n\"]; entity C in C {y?: __cedar::String, y: A}; }
action \"d e\";␤␤namespace N::M {␤  entity U;␤␤  entity entity;␤␤  external action \"c\";␤}␤|namespace N::M { externa\
l action c; entity U, entity; } action \"d e\";
namespace M {␤  entity B in [M::B] = {␤    x?: __cedar::Long,␤    z: __cedar::decimal,␤  };␤␤  entity C in [M::B] = {\
␤    x?: __cedar::Long,␤    z: __cedar::decimal,␤  };␤}␤␤namespace N::M {␤  entity A;␤␤  entity U;␤␤  external action \
\"b\";␤}␤|namespace M { entity C, B in B {z: decimal, x?: Long}; } namespace N::M { entity A; external action b; entit\
y U; }
namespace N {␤  entity B enum [\"a\"];␤␤  entity C in [N::B] tags __cedar::Long;␤}␤|namespace N::M {  } namespace N { \
entity C in N::B tags Long; entity B enum [\"a\"]; }
namespace N {␤  entity T;␤}␤|namespace M {  } namespace N { entity T; type A = Long; }
entity A = {␤  w: A,␤} tags {␤  w?: __cedar::ipaddr,␤  z?: __cedar::decimal,␤};␤␤entity T = {␤  w: A,␤} tags {␤  w?: _\
_cedar::ipaddr,␤  z?: __cedar::decimal,␤};␤|entity A, T {w: A} tags {z?: decimal, w?: ipaddr};
entity B enum [\"a\"];␤␤namespace M {␤  action \"a\";␤}␤|namespace M { action a; type C = decimal; } entity B enum [\"\
a\"];
namespace N {␤  external entity U;␤}␤␤namespace N::M {␤  entity A in [N::M::B];␤␤  entity B;␤␤  entity C in [N::M::B];\
␤␤  action \"a\";␤}␤|namespace N { external entity U; } namespace N::M { entity C, A in B; action a; entity B; }
namespace N {␤  entity C tags N::U;␤␤  entity U = {␤    w: __cedar::String,␤  } tags __cedar::String;␤}␤|namespace N \
{ entity C tags U; entity U = {w: String} tags String; }
entity A tags Set<Set<__cedar::Bool>>;␤␤entity T tags Set<Set<__cedar::Bool>>;␤|entity A, T tags Set<Set<Bool>>;
entity A = {␤  w: __cedar::ipaddr,␤};␤␤entity U = {␤  w: __cedar::ipaddr,␤};␤␤action \"a\";␤|entity A, U {w?: T, w: ip\
addr}; action a in []; namespace N {  }
entity T = {␤  w: __cedar::ipaddr,␤} tags {␤  w: __cedar::Long,␤};␤|namespace M {  } namespace N {  } entity T {w: __c\
edar::ipaddr, w: ipaddr} tags {w: Long};
entity A in [A];␤␤namespace N {␤  external action \"b\";␤}␤|entity A in A; type U = A; namespace N { external action b\
; }
namespace M {␤  entity T enum [\"a\"];␤␤  action \"b\";␤}␤|namespace M { action b in []; entity T enum [\"a\"]; }
entity T enum [\"b\\n\"];␤␤namespace N::M {␤  external entity C;␤}␤|entity T enum [\"b\\n\"]; namespace N { type C = S\
et<ipaddr>; } namespace N::M { external entity C; }
namespace N::M {␤  entity A;␤␤  entity C tags Set<__cedar::String>;␤␤  entity U;␤}␤|namespace N::M { entity A; entity \
U = {}; entity C {} tags Set<String>; }
namespace N {␤  entity T enum [\"b\\n\"];␤}␤|namespace N { entity T enum [\"b\\n\"]; type C = ipaddr; type U = Bool; }
namespace N::M {␤  external action \"a\";␤}␤|namespace N::M { external action a; type U = String; type T = ipaddr; } 
namespace M {␤  entity C in [M::U];␤␤  entity U enum [\"a\"];␤}␤|namespace M { entity U enum [\"a\"]; entity C in U; }
namespace M {␤  entity A;␤␤  entity B;␤}␤|namespace M { entity A, B {}; type T = decimal; }
entity C enum [\"a\"];␤␤external action \"c\";␤␤action \"d e\";␤|external action c; action \"d e\"; entity C enum [\"a\
\"];
entity U;␤|type A = {x: __cedar::String}; entity U;
entity U = {␤  w?: __cedar::ipaddr,␤};␤|entity U = {w?: ipaddr}; type C = {w: decimal};
entity T enum [\"a\"];␤␤action \"a\";␤|action a; entity T enum [\"a\"];
action \"a\";␤|action a; type T = __cedar::Long;
namespace N {␤  entity A tags Set<N::A>;␤␤  entity C enum [\"b\\n\"];␤␤  entity U in [N::U] tags __cedar::Bool;␤}␤|nam\
espace N { entity U in U tags Bool; entity C enum [\"b\\n\"]; entity A tags Set<A>; }
namespace N {␤  entity A;␤␤  entity B tags N::A;␤}␤|namespace N { entity B tags A; entity A; } namespace N::M {  }
namespace N {␤  entity A tags __cedar::String;␤␤  entity T tags __cedar::String;␤}␤|namespace N { entity A, T tags Str\
ing; }
namespace N {␤  entity A in [N::T];␤␤  entity T in [N::T];␤}␤|namespace N { entity A, T in T = {}; }
action \"d e\";␤␤namespace N::M {␤  entity C;␤␤  entity entity;␤}␤|namespace N::M { entity C, entity in [] {}; } actio\
n \"d e\";
namespace N {␤  external action \"b\";␤}␤␤namespace N::M {␤  external entity T;␤}␤|namespace N { external action b; } \
namespace N::M { type U = Bool; external entity T; type A = {w?: String, \"a b\": Bool}; }
namespace N::M {␤  entity C tags N::M::T;␤␤  entity T tags N::M::T;␤␤  entity U enum [\"a\"];␤␤  action \"c\";␤}␤|name\
space N::M { entity C, T = {} tags T; action c; entity U enum [\"a\"]; } namespace M {  }
namespace N::M {␤  action \"a\";␤}␤|namespace N { type U = {z?: decimal, y: {w: String}}; } namespace N::M { action a\
; } 
namespace N {␤  action \"c\";␤␤  action \"d e\";␤}␤|namespace N { type B = __cedar::Bool; action c in []; action \"d e\
\"; }
external entity B;␤␤namespace M {␤  external action \"a\";␤␤  action \"b\";␤}␤|external entity B; namespace M { actio\
n b; external action a; type A = {}; }
entity Set enum [\"a\"];␤|entity Set enum [\"a\"]; type entity = Bool;
entity B tags {␤  \"a b\": __cedar::Long,␤};␤␤entity T;␤|namespace N::M { type C = Set<String>; type U = Long; } entit\
y T; entity B tags {\"a b\": __cedar::Long};
namespace N {␤  external entity B;␤␤  external entity U;␤}␤|namespace N { external entity B; type A = decimal; externa\
l entity U; }
namespace M {␤  entity T tags __cedar::String;␤␤  action \"c\";␤}␤|namespace M { action c; entity T {} tags String; ty\
pe B = ipaddr; }
namespace N {␤  entity A in [N::B];␤␤  entity B in [N::B];␤}␤␤namespace N::M {␤  action \"d e\";␤}␤|namespace N::M { a\
ction \"d e\" in []; } namespace N { entity A, B in B {}; }
"
}
