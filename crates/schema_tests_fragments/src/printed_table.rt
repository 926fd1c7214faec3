// Texts, and how their fragments are printed by a second program, which was written from the definitions in Python; behind `!` what
// it says of a fragment that has no text. A line is the answer, then behind `|` the text; ␤ stands for a line feed.

/// Texts with their answers.
pub fn printed_lines() -> &'static str {
    "\
|
|// nothing
namespace N {␤}␤|namespace N {}
namespace M {␤  entity A;␤}␤␤namespace N {␤}␤|namespace N {} namespace M { entity A; }
entity B;␤␤namespace M {␤  entity A;␤}␤␤namespace N::M {␤}␤|namespace M { entity A; } namespace N::M {} entity B;
namespace N {␤  entity A in [B] = {␤    x: B,␤  };␤␤  entity B;␤}␤|namespace N { entity B; entity A in B { x: B }; }
entity A in [A];␤|entity A in A;
type T = Long;␤|type T = Long;
type T = Set<Set<T>>;␤|type T = Set<Set<T>>;
type T = {};␤|type T = {};
type T = {␤  x: {  },␤  y: {␤    z: Set<{    }>,␤  },␤};␤|type T = { x: {}, y: { z: Set<{}> } };
entity A = {␤  x: {  },␤};␤|entity A { x: {} };
namespace N {␤  entity A = {␤    x: {    },␤  } tags {};␤}␤|namespace N { entity A { x: {} } tags {}; }
namespace N {␤  entity A tags {␤  k: Long,␤  l: {␤    m: Bool,␤  },␤};␤}␤|namespace N { entity A tags { k: Long, l: { m: Bool } }; }
entity B = {␤  Set?: Set,␤  s: Set<Set>,␤};␤␤entity Set;␤|entity Set; entity B { s: Set<Set>, Set?: Set };
entity A = {␤  x?: Long,␤};␤|entity A { x: Nope, x?: Long };
entity A = {␤  \"in\": Long,␤  \"zip code\"?: String,␤};␤|entity A { \"zip code\"?: String, \"in\": Long };
entity A = {␤  \"\": Bool,␤  __cedar: Bool,␤  \"a b\": Long,␤  entity: Long,␤  \"if\": Long,␤  \"true\": Long,␤  \"é\": Long,␤};␤|entity A { \"if\": Long, \"\": Bool, \"a b\": Long, __cedar: Bool, entity: Long, \"true\": Long, \"\\u{e9}\": Long };
entity E enum [\"a\\'\\u{7f}\", \"a\", \"\\n\\r\\t\\0\\\\\\\"\", \"\\u{1}\\u{1f}\", \"􏿿é␠\", \"x\"];␤|entity E enum [\"a'\\x7f\", \"a\", \"\\n\\r\\t\\0\\\\\\\"\", \"\\u{1}\\u{1f}\", \"\\u{10FFFF}é␠\", \"x\"];
@doc(\"a\\nb\")␤entity A;␤|@doc(\"a\\nb\") entity A;
@a(\"x\")␤@b␤@c(\"\")␤entity A;␤|@b @a(\"x\") @c(\"\") entity A;
@doc(\"ns\")␤namespace N {␤  @t␤  type T = Long;␤␤  @doc(\"e\")␤  entity A = {␤    @doc(\"x\")␤    x: Long,␤    @x(\"1\")␤    @y␤    \"z z\"?: {␤      @in␤      w: Bool,␤    },␤  };␤␤  @a(\"\\\"\")␤  action \"a\";␤}␤|@doc(\"ns\") namespace N { @doc(\"e\") entity A { @doc(\"x\") x: Long, @y @x(\"1\") \"z z\"?: { @in w: Bool } }; @t type T = Long; @a(\"\\\"\") action a; }
@n␤namespace N {␤}␤|@n namespace N {}
@a(\"1\")␤@b(\"2\")␤namespace N {␤  entity A;␤␤  entity B;␤}␤|@b(\"2\") @a(\"1\") namespace N { entity A, B; }
external entity A;␤|external entity A;
@x␤external entity A in [B];␤␤external action \"a b\" in [Action::\"c\", N::Action::\"d\", Action::\"e\"];␤|@x external entity A in B; external action \"a b\" in [c, N::Action::\"d\", \"e\"];
action \"a\";␤|action a;
action \"a\";␤␤action \"b\";␤␤action \"c d\";␤|action \"a\", b, \"c d\";
action \"a\" in [Action::\"b\"];␤|action a in b;
action \"a\";␤|action a in [];
action \"a\" in [Action::\"b\", Action::\"c\", N::M::\"d\\n\"];␤|action a in [b, Action::\"c\", N::M::\"d\\n\"];
namespace N {␤  action \"a\" in [Action::\"b\", Action::\"c\", Action::\"d\", N::Action::\"e\"];␤}␤|namespace N { action a in [b, \"c\", Action::\"d\", N::Action::\"e\"]; }
entity U;␤␤action \"v\" in [Action::\"w\"] appliesTo {␤  principal: [U],␤  resource: [U, U],␤  context: {},␤};␤␤action \"w\";␤|entity U; action v in \"w\" appliesTo { principal: U, resource: [U, U] }; action w;
action \"a\" appliesTo {␤  principal: [A],␤  resource: [B, N::C],␤  context: {},␤};␤|action a appliesTo { principal: A, resource: [B, N::C], context: {} };
action \"a\" appliesTo {␤  principal: [A],␤  resource: [B],␤  context: C,␤};␤|action a appliesTo { principal: A, resource: B, context: C };
namespace N {␤  action \"a\" appliesTo {␤    principal: [A, B],␤    resource: [A],␤    context: N::C,␤  };␤}␤|namespace N { action a appliesTo { resource: [A], principal: [A, B], context: N::C }; }
namespace N {␤  action \"a\" appliesTo {␤    principal: [A],␤    resource: [B],␤    context: {␤      x: Long,␤      \"y y\"?: {␤        z: Set<{␤          w: Bool,␤        }>,␤      },␤    },␤  };␤␤  action \"b\" appliesTo {␤    principal: [A],␤    resource: [B],␤    context: {␤      x: Long,␤      \"y y\"?: {␤        z: Set<{␤          w: Bool,␤        }>,␤      },␤    },␤  };␤}␤|namespace N { action a, b appliesTo { principal: A, resource: B, context: { x: Long, \"y y\"?: { z: Set<{ w: Bool }> } } }; }
@c(\"d\")␤action \"a\" appliesTo {␤  principal: [A],␤  resource: [B],␤  context: {␤    @k(\"v\")␤    x: decimal,␤  },␤};␤|@c(\"d\") action a appliesTo { principal: A, resource: B, context: { @k(\"v\") x: decimal } };
entity A = {␤  b: Bool,␤  c: __cedar::Long,␤  d: decimal,␤  e: __cedar::ipaddr,␤  l: Long,␤  s: String,␤};␤|entity A { b: Bool, l: Long, s: String, c: __cedar::Long, d: decimal, e: __cedar::ipaddr };
entity A in [B, B, C::D] = {␤  x: Set<Set<{␤    y: Long,␤  }>>,␤} tags Set<String>;␤|entity A in [B, B, C::D] { x: Set<Set<{ y: Long }>> } tags Set<String>;
entity A = {␤  x: Long,␤} tags Long;␤|entity A = { x: Long } tags Long;
entity A in [C] = {␤  x: Long,␤};␤␤entity B in [C] = {␤  x: Long,␤};␤|entity A, B in C { x: Long };
!There are name collisions: [N::A]|namespace N { entity A; type A = Long; }
!There are name collisions: [M::C, N::A, N::B]|namespace N { entity B, A; type B = Long; type A = Bool; } namespace M { type C = Long; entity C; }
type A = Long;␤␤entity A;␤|entity A; type A = Long;
!There are name collisions: [N::A]|namespace N { entity A; type A = Long; } entity B; type B = Long;
!There are name collisions: [L::Z, M::N, M::N::A]|namespace M::N { entity A; type A = Long; } namespace M { entity N; type N = {}; } namespace L { type Z = Long; entity Z; }
entity A = {␤  a: {␤    b: {␤      c: {␤        d: {␤          e: {          },␤          \"f f\": Set<Set<{␤            g: Long,␤          }>>,␤        },␤      },␤    },␤  },␤};␤|entity A { a: { b: { c: { d: { e: {}, \"f f\": Set<Set<{ g: Long }>> } } } } };
namespace A::B::C {␤  entity X = {␤    a: {␤      b: {␤        c: {␤          d: Long,␤        },␤      },␤    },␤  } tags Set<{␤  t: {  },␤}>;␤}␤|namespace A::B::C { entity X { a: { b: { c: { d: Long } } } } tags Set<{ t: {} }>; }
entity A enum [\"b\", \"a\", \"b\"];␤␤entity B enum [\"x\"];␤|entity A enum [\"b\", \"a\", \"b\"]; entity B enum [\"x\"] ;
namespace N {␤  entity A enum [\"x\"];␤␤  external entity B in [A];␤␤  external action \"c\";␤}␤|namespace N { entity A enum [\"x\"]; external entity B in A; external action c; }
type A = B;␤␤type B = {␤  x: A,␤  y?: Set<B>,␤};␤␤namespace N {␤  type C = A;␤␤  type D = {␤    q: C,␤  };␤␤  entity E = {␤    d: D,␤  };␤}␤|type A = B; type B = { \"x\": A, y?: Set<B> }; namespace N { type C = A; type D = { q: C }; entity E { d: D }; }
entity A;␤␤entity B;␤␤namespace A {␤  entity Z;␤}␤␤namespace A::Z {␤  entity Y;␤}␤␤namespace Z {␤  entity A;␤}␤|entity B; entity A; namespace Z { entity A; } namespace A { entity Z; } namespace A::Z { entity Y; }
entity Action2;␤␤action \"\\\"\";␤␤action \"Action\";␤|entity Action2; action Action; action \"\\\"\";
@doc␤entity C;␤␤@doc␤namespace N {␤  @b(\"x y\")␤  @doc␤  entity A;␤␤  @b(\"x y\")␤  @doc␤  entity B;␤}␤|@doc namespace N { @doc @b(\"x y\") entity A, B; } @doc entity C;
@a(\"é\u{2028}\\u{1b}\")␤entity A = {␤  @b(\"\\0\")␤  \"c\\td\": Long,␤};␤|@a(\"é\\u{2028}\\x1b\") entity A { @b(\"\\0\") \"c\\td\": Long };
entity __cedarx;␤␤entity _a1 = {␤  _: Long,␤  a1: Bool,␤};␤|entity __cedarx; entity _a1 { _: Long, a1: Bool };
namespace Org {␤  entity Company;␤␤  external entity Team in [Company];␤␤  external action \"audit\";␤}␤|namespace Org { external entity Team in Company; entity Company; external action audit; }
entity A = {␤  x: datetime,␤  y: duration,␤};␤␤entity datetime;␤|entity datetime; entity A { x: datetime, y: duration };
entity A = {␤  \"1a\": Long,␤  \"@\": Long,␤  Set: Long,␤  \"a-b\": Long,␤  \"é\": Bool,␤};␤|entity A { \"@\": Long, \"a-b\": Long, \"1a\": Long, \"Set\": Long, \"é\": Bool };
action \"a\" appliesTo {␤  principal: [A],␤  resource: [A],␤  context: {␤    x: {    },␤  },␤};␤|action a appliesTo { principal: [A], resource: [A], context: { x: {} } };
namespace N {␤  @a␤  action \"x\" appliesTo {␤    principal: [A],␤    resource: [A],␤    context: {},␤  };␤␤  @b␤  action \"y\" in [Action::\"x\"];␤}␤|namespace N { @a action x appliesTo { principal: [A], resource: [A] }; @b action y in x; }
type T = {␤  @a␤  @b(\"c\")␤  x: {␤    @d␤    y: Long,␤  },␤};␤|type T = { @a @b(\"c\") x: { @d y: Long } };
entity A = {␤  x: N::M::T,␤  y: Set<N::T>,␤};␤␤namespace N {␤  entity T;␤}␤␤namespace N::M {␤  type T = Long;␤}␤|entity A { x: N::M::T, y: Set<N::T> }; namespace N::M { type T = Long; } namespace N { entity T; }
namespace Org {␤  entity Company;␤␤  external entity Team in [Company];␤␤  external action \"audit\";␤}␤␤@doc(\"photo sharing\")␤namespace Photo {␤  type Place = {␤    city: String,␤    \"zip code\"?: String,␤  };␤␤  entity Album in [Album] = {␤    owner: User,␤    status: Status,␤  };␤␤  entity Group;␤␤  entity Status enum [\"open\", \"closed\"];␤␤  entity User in [Group, Org::Team] = {␤    address: ipaddr,␤    home: Place,␤  } tags Set<String>;␤␤  action \"any\";␤␤  action \"read\" in [Action::\"any\"] appliesTo {␤    principal: [User],␤    resource: [Album],␤    context: {␤      at?: datetime,␤      ip: ipaddr,␤    },␤  };␤␤  action \"write it\" in [Action::\"any\"] appliesTo {␤    principal: [User],␤    resource: [Album],␤    context: {␤      at?: datetime,␤      ip: ipaddr,␤    },␤  };␤}␤|@doc(\"photo sharing\")␤namespace Photo {␤  type Place = { city: String, \"zip code\"?: String, };␤  entity Group;␤  entity User in [Group, Org::Team] = {␤    home: Place,␤    address: ipaddr,␤  } tags Set<String>;␤  entity Status enum [\"open\", \"closed\"];␤  entity Album in Album { owner: User, status: Status };␤  action read, \"write it\" in [any] appliesTo {␤    principal: [User],␤    resource: Album,␤    context: { ip: ipaddr, at?: datetime, },␤  };␤  action any;␤}␤// another team's declarations␤namespace Org {␤  external entity Team in Company;␤  entity Company;␤  external action audit;␤}␤"
}
