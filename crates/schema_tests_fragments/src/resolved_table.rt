// Texts, and what a second program says of them under the standard table, which was written from the definitions in Python: the
// fragment that they resolve to, or behind `!` the first reference that means nothing. A line is the answer, then behind `|` the
// text. In a fragment `c` stands before the name of a common type, `e` before that of an entity type.

/// Texts that are resolved.
pub fn resolved_lines() -> &'static str {
    "\
[ entity User { a: cString}]|entity User { a: String };
[ entity User { a: cdecimal}]|entity User { a: decimal };
[ entity User { a: eUser}]|entity User { a: User };
[ entity User { a: eAction} action A principal resource context {}]|entity User { a: Action }; action A;
[ type T cLong entity User { a: cT}]|type T = Long; entity User { a: T };
[ entity User { a: cNS::T}][NS type T cLong]|namespace NS { type T = Long; } entity User { a: NS::T };
[N type T cLong entity A { x: cN::T} entity T {}]|namespace N { entity T; type T = Long; entity A { x: T }; }
[ type R {}][N entity R {} entity T {} action a principal N::T resource N::T context cR]|type R = {}; namespace N { entity R; entity T; action a appliesTo { principal: T, resource: T, context: R }; }
[ type R {}][N type R {} entity T {} action a principal N::T resource N::T context cN::R]|type R = {}; namespace N { type R = {}; entity T; action a appliesTo { principal: T, resource: T, context: R }; }
[ entity Long {}][N type C c__cedar::Long type T eLong]|entity Long; namespace N { type T = Long; type C = __cedar::Long; }
[ type decimal cLong][N type C c__cedar::decimal type T cdecimal]|type decimal = Long; namespace N { type T = decimal; type C = __cedar::decimal; }
[ type C cLong][N type T eN::Long entity Long {}]|namespace N { entity Long; type T = Long; } type C = Long;
[ type T cT][N type T eN::A entity A { z: < cN::T>}]|type T = T; namespace N { type T = A; entity A {z: Set<T>}; }
[ entity T { y?: < c__cedar::String>} tags < < eT>>][N::M entity A N::M::B T {} tags cBool entity B enum u]|entity T {y?: Set<__cedar::String>} tags Set<Set<T>>; namespace N::M { entity B enum [\"u\"]; entity A in [B, T] tags Bool; }
[ entity A N::T {}][N type A cN::A entity T A {}][N::M type T cN::M::T action b in N::M::Action=b principal resource context {}]|external entity A in N::T; namespace N::M { action b in b; type T = T; } namespace N { entity T in [A] {}; type A = N::A; }
[ entity A Action {} action a in Action=a principal resource context {}][N::M entity B { y: cipaddr} tags { x: eA y: c__cedar::Bool}]|action a in a; entity A in [Action]; namespace N::M { entity B {y: ipaddr} tags {x: A, y: __cedar::Bool}; }
[ type A cdecimal entity A {} tags cA][N type A cString type T cN::T]|type A = decimal; entity A tags A; namespace N { type A = String; type T = T; }
[ type T cLong][M entity A M::A { x: cT} entity B {}]|type T = Long; namespace M { entity B; entity A in A {x: T}; }
[ entity A A {}][N type A cN::A entity A N::A {} tags cipaddr entity Action { x: c__cedar::datetime}]|entity A in A; namespace N { type A = A; entity Action {x: __cedar::datetime}; entity A in A tags ipaddr; }
[ entity T enum u][M type C eM::A entity A { z?: eT} action b principal M::A resource T M::A context cM::C][N]|entity T enum [\"u\"]; namespace M { entity A {z?: T}; action b appliesTo { principal: A, resource: [T, A], context: C }; type C = A; } namespace N {}
[ type T c__cedar::datetime action a principal resource context {}][N::M entity A { z?: eN::M::Action} entity B { x: eN::M::B} action a in N::M::Action=a principal resource context {}]|action a; type T = __cedar::datetime; namespace N::M { entity B {x: B}; entity A {z?: Action}; action a in Action::\"a\"; }
[ action b principal resource context {}][M type decimal c__cedar::String entity B {} action a in Action=b in M::Action=a principal resource context {}]|action b; namespace M { entity B; action a in [b, a]; type decimal = __cedar::String; }
[M entity B M::B {} tags eM::B]|namespace M { entity B in [M::B] tags M::B; }
[M type A cM::A entity A {} action a principal M::A resource M::A context {}]|namespace M { type A = M::A; entity A; action a appliesTo { principal: A, resource: A }; }
[ action b principal resource context {}][N::M entity A {} action a in N::M::Action=a principal N::M::A resource N::M::A context { x: c__cedar::decimal} action b in N::M::Action=b principal resource context {}]|action b; namespace N::M { entity A {}; action a in a appliesTo { principal: A, resource: A, context: {x: __cedar::decimal} }; action b in b; }
[ entity A {}][M type A cM::A action a in M::Action=a principal resource context {}]|entity A; namespace M { type A = A; action a in Action::\"a\"; }
[ type T cN::M::A][N::M type A { z: cT} action a principal resource context {}]|type T = N::M::A; namespace N::M { type A = {z: T}; action a; }
[ action a in Action=a principal resource context {}][N entity A Action {}]|action a in Action::\"a\"; namespace N { entity A in Action {}; }
[N::M action b in N::M::Action=b in N::M::Action=b principal resource context {}]|namespace N::M { action b in [N::M::Action::\"b\", Action::\"b\"]; }
[M type T { x: cM::T} entity T M::T {} tags cM::T][N::M]|namespace M { entity T in T {} tags T; type T = {x: T}; } namespace N::M {}
[ entity B {}][N::M type A cN::M::A type T { y: cN::M::A} entity A N::M::A {}]|entity B {}; namespace N::M { type T = {y: A}; entity A in A; type A = A; }
[ action a in Action=a principal resource context {}][N entity A N::Action N::A {} tags {} action a in N::Action=a principal resource context {}]|action a in a; namespace N { entity A in [Action, A] tags {}; action a in a; }
[M action b in M::Action=b principal M::Action resource M::Action context cLong][N action a principal resource context {}]|namespace M { action b in M::Action::\"b\" appliesTo { principal: Action, resource: [M::Action], context: Long }; } namespace N { action a; }
[ entity A A {} action a principal resource context {}][M][N::M action a principal resource context {} action b in N::M::Action=a principal A resource N::M::Action context cipaddr]|action a; entity A in A; namespace N::M { action a; action b in a appliesTo { principal: A, resource: Action, context: ipaddr }; } namespace M {}
[ action a principal Action resource N::M::A context {}][N::M entity A {}]|action a appliesTo { principal: Action, resource: N::M::A, context: {} }; namespace N::M { entity A; }
[N::M action a in N::M::Action=a principal N::M::Action resource N::M::Action context cLong]|namespace N::M { action a in a appliesTo { principal: N::M::Action, resource: Action, context: Long }; }
[N::M entity A {} entity B { y?: cdecimal} entity Long N::M::A { y: { y: eN::M::A z?: eN::M::Long}}]|namespace N::M { entity Long in A {y: {z?: N::M::Long, y: N::M::A}}; entity B {y?: decimal}; entity A; }
[ entity A {} tags eN::M::A][M type T eM::A entity A {}][N::M entity A {} action b in N::M::Action=b principal resource context {}]|entity A {} tags N::M::A; namespace M { entity A; type T = A; } namespace N::M { entity A; action b in b; }
[N::M type T cN::M::T]|namespace N::M { type T = N::M::T; }
[ type A < cipaddr> entity A {}][N type T cA][N::M entity T A { z?: eN::M::T} action a in N::M::Action=a principal resource context {}]|type A = Set<ipaddr>; entity A; namespace N { type T = A; } namespace N::M { action a in a; entity T in A {z?: T}; }
[N type decimal cN::decimal]|namespace N { type decimal = decimal; }
[N::M entity B N::M::B {}]|namespace N::M { entity B in N::M::B; }
[ entity T {}][N::M type T cN::M::T]|entity T; namespace N::M { type T = T; }
[ entity A enum u][M entity T M::T {} action b principal A resource A context cdecimal]|entity A enum [\"u\"]; namespace M { action b appliesTo { principal: A, resource: A, context: decimal }; entity T in T {}; }
[ action b principal resource context {}][N::M action a in Action=b principal resource context {}]|action b; namespace N::M { action a in b; }
[N::M entity Long N::M::Long {}]|namespace N::M { external entity Long in Long; }
[ type A cdecimal][N entity A N::A {}]|type A = decimal; namespace N { entity A in A {}; }
[ entity B {} entity T {}][N type T cBool entity T enum u][N::M type decimal < cN::M::decimal> entity B N::M::B {} tags {}]|entity B; entity T; namespace N::M { type decimal = Set<decimal>; entity B in B tags {}; } namespace N { entity T enum [\"u\"]; type T = Bool; }
[ action a in M::Action=a principal resource context {}][M action a principal resource context {}]|action a in M::Action::\"a\"; namespace M { action a; }
[ type T { y?: cT} entity T T {}][M]|type T = {y?: T}; external entity T in T; namespace M {}
[ type A < cBool>][M entity A { x: eM::A z: eM::A}]|type A = Set<Bool>; namespace M { entity A {z: A, x: A}; }
[ type decimal cdecimal entity A { y: eA}][N::M]|type decimal = decimal; entity A {y: A}; namespace N::M {}
[ entity A Long {} entity Long enum u][M]|entity A in Long {}; entity Long enum [\"u\"]; namespace M {}
[ action a principal resource context {}][N entity A {} action a in N::Action=a principal resource context {}]|action a; namespace N { action a in Action::\"a\"; entity A; }
[ type A cLong][N::M type T cBool entity A { z: eN::M::A}]|type A = Long; namespace N::M { type T = Bool; entity A {z: A}; }
[ action a in N::M::Action=a][N::M action a principal resource context {}]|external action a in N::M::Action::\"a\"; namespace N::M { action a; }
[N entity B enum u entity Long N::Long {} action b in N::Action=b principal resource context {}]|namespace N { action b in b; entity B enum [\"u\"]; entity Long in Long; }
[ type T c__cedar::datetime][N type T < cN::T> entity T enum u]|type T = __cedar::datetime; namespace N { entity T enum [\"u\"]; type T = Set<T>; }
[M type A eM::Long entity Long {}][N entity T { x: < {}>}]|namespace N { entity T {x: Set<{}>}; } namespace M { entity Long; type A = Long; }
[ action b principal resource context {}][M entity Action {} action a in Action=b principal resource context {}][N::M]|action b; namespace M { entity Action; action a in Action::\"b\"; } namespace N::M {}
[M action b in N::M::Action=b principal resource context {}][N::M action b]|namespace N::M { external action b; } namespace M { action b in N::M::Action::\"b\"; }
[M][N::M type A c__cedar::Bool entity A N::M::A { z: cLong}]|namespace M {} namespace N::M { entity A in N::M::A {z: Long}; type A = __cedar::Bool; }
[ type A c__cedar::Bool][M entity B {}][N::M type A cN::M::A action a principal resource context {}]|type A = __cedar::Bool; namespace N::M { action a; type A = A; } namespace M { entity B; }
[N action b in N::Action=b principal resource context {}][N::M type T {} action b in N::Action=b principal resource context {}]|namespace N { action b in b; } namespace N::M { action b in N::Action::\"b\"; type T = {}; }
[ entity A {} action b principal resource context {}][N::M action a principal A resource A context {}]|entity A; action b; namespace N::M { action a appliesTo { principal: [A], resource: [A] }; }
[N::M type A < < c__cedar::datetime>> type T cN::M::A entity A {} tags cLong]|namespace N::M { type T = N::M::A; type A = Set<Set<__cedar::datetime>>; entity A tags Long; }
[ type T cString entity A N::T {}][N type T cdecimal entity T {} action a principal resource context {}]|type T = String; external entity A in [N::T]; namespace N { type T = decimal; entity T; action a; }
[ entity A enum u action a principal resource context {}][M type T {}][N::M action b in Action=a principal resource context {}]|action a; entity A enum [\"u\"]; namespace M { type T = {}; } namespace N::M { action b in Action::\"a\"; }
[ type T cLong entity B {}][N::M entity B N::M::T {} entity T enum u action b]|entity B; type T = Long; namespace N::M { entity T enum [\"u\"]; entity B in [T] {}; external action b; }
[ type C cC entity T enum u][N type T cN::T entity B N::T {} entity T { x: < { z: eN::B}>}]|type C = C; entity T enum [\"u\"]; namespace N { entity T {x: Set<{z: B}>}; type T = T; entity B in N::T; }
[ type T cString][N::M entity T {} action a principal resource context {} action b principal N::M::T resource N::M::Action context {}]|type T = String; namespace N::M { entity T; action a; action b appliesTo { principal: T, resource: [Action] }; }
[N::M entity A {} entity B {} action b principal N::M::A resource N::M::B context c__cedar::Bool]|namespace N::M { entity A; action b appliesTo { principal: A, resource: B, context: __cedar::Bool }; entity B; }
[ action b principal M::T resource M::Action context {}][M entity B {} entity T { x: {}} action b principal resource context {}]|action b appliesTo { principal: [M::T], resource: M::Action }; namespace M { entity B; entity T {x: {}}; action b; }
[ type A c__cedar::datetime action a principal resource context {}][N::M entity B { x?: c__cedar::decimal z: eN::M::decimal} entity decimal {}]|type A = __cedar::datetime; action a; namespace N::M { entity B {x?: __cedar::decimal, z: decimal}; entity decimal; }
[M type T c__cedar::String action a principal resource context {} action b in M::Action=b principal M::Action resource M::Action context {}]|namespace M { action b in b appliesTo { principal: M::Action, resource: Action }; action a; type T = __cedar::String; }
[M][N::M entity A N::M::Action {} action a principal N::M::A resource N::M::Action N::M::A context {}]|namespace M {} namespace N::M { entity A in Action; action a appliesTo { principal: A, resource: [N::M::Action, A] }; }
[ action b principal resource context {}][N entity B {} action a principal N::Action resource N::B context {}][N::M entity T {}]|action b; namespace N::M { entity T {}; } namespace N { action a appliesTo { principal: Action, resource: B }; entity B; }
[ type T < c__cedar::datetime> entity T {}][N type C cString type T cN::T action b in N::Action=b in N::Action=b principal resource context {}]|type T = Set<__cedar::datetime>; entity T {}; namespace N { type C = String; action b in [N::Action::\"b\", b]; type T = T; }
[ type T cdecimal][N entity A {}][N::M type T eN::M::A entity A { y: cN::M::T z?: {}} entity T enum u]|type T = decimal; namespace N::M { entity T enum [\"u\"]; entity A {z?: {}, y: T}; type T = N::M::A; } namespace N { entity A; }
[N entity A {} action b principal resource context {}][N::M type T cN::M::T entity T {} action b principal N::M::Action resource N::M::T context {}]|namespace N::M { action b appliesTo { principal: Action, resource: T }; entity T; type T = T; } namespace N { entity A; action b; }
[ action b principal resource context {}][M type A c__cedar::String type C c__cedar::datetime entity Long {}][N type T eM::Long entity B {}]|action b; namespace M { type C = __cedar::datetime; entity Long; type A = __cedar::String; } namespace N { entity B; type T = M::Long; }
[ type A cBool entity A enum u][M action a in M::Action=a principal resource context {}][N::M type T { x: {} z: { x?: eN::M::A}} entity A {} entity T {}]|type A = Bool; entity A enum [\"u\"]; namespace M { action a in a; } namespace N::M { entity A; type T = {z: {x?: A}, x: {}}; entity T {}; }
[ entity Long enum u][M type C cBool entity B Long M::Action {} action b][N::M entity B {}]|entity Long enum [\"u\"]; namespace N::M { entity B {}; } namespace M { external action b; external entity B in [Long, Action]; type C = Bool; }
[ type A < c__cedar::datetime> entity T {}][M entity A {} action a principal M::Action resource M::A context {}][N]|type A = Set<__cedar::datetime>; entity T {}; namespace M { action a appliesTo { principal: [Action], resource: A }; entity A; } namespace N {}
[ entity A A {} action a principal A resource A context {}][M][N type A c__cedar::String]|external entity A in A; action a appliesTo { principal: A, resource: A, context: {} }; namespace N { type A = __cedar::String; } namespace M {}
[N entity A enum u]|namespace N { entity A enum [\"u\"]; }
[M entity Action {} entity B M::B M::B {}]|namespace M { entity B in [B, B]; entity Action; }
[N entity B {} tags cdecimal action a principal resource context {}][N::M action a principal resource context {}]|namespace N { entity B tags decimal; action a; } namespace N::M { action a; }
[ type T cT][N::M entity A {}]|type T = T; namespace N::M { entity A; }
[ entity A Action {} action a principal resource context {}][N][N::M entity B {} tags cipaddr]|entity A in Action; action a; namespace N {} namespace N::M { entity B {} tags ipaddr; }
[N action a principal resource context {}][N::M]|namespace N { action a; } namespace N::M {}
[ type C < < cString>>][N::M entity Action {} tags c__cedar::Bool action a principal resource context {}]|type C = Set<Set<String>>; namespace N::M { entity Action tags __cedar::Bool; action a; }
[N entity A enum u entity B { x?: cLong}]|namespace N { entity B {x?: Long}; entity A enum [\"u\"]; }
[ type C c__cedar::Bool action a principal resource context {}][M type T {} entity T {}][N]|action a; type C = __cedar::Bool; namespace N {} namespace M { type T = {}; entity T; }
[M action b principal resource context {}][N type T < eN::A> entity A enum u entity B N::B {}]|namespace M { action b; } namespace N { entity A enum [\"u\"]; entity B in B {}; type T = Set<A>; }
[ entity A enum u][N entity A N::A {}]|entity A enum [\"u\"]; namespace N { entity A in [A]; }"
}

/// Texts with a reference that means nothing.
pub fn refused_lines() -> &'static str {
    "\
!type X|entity User { a: X };
!type M::T|namespace N { entity A { x: M::T }; } namespace N::M { entity T; }
!type B|namespace M { entity A in [B, N::B] {y: A, x: Set<C>}; }
!type M::T|entity B in [M::T, A]; namespace N::M { entity A enum [\"u\"]; entity T in [N::T, A] tags A; action b in [b, Action::\"a\"]; }
!type A|entity T in A {y: A, z?: Long}; namespace N { type C = Long; action b in b appliesTo { principal: [A, Action], resource: [T, B] }; }
!action Action::\"a\"|namespace N::M { type A = A; action b in a appliesTo { principal: [Action, A], resource: [A, B], context: Bool }; }
!type N::B|external entity A in N::A; entity T in [N::B, A] tags A; namespace M { external entity A in Long; } namespace N { entity A in A {y: T, x?: A}; }
!action Action::\"b\"|action a in [a, b] appliesTo { principal: A, resource: [Long, N::M::T], context: T }; namespace M { type T = Set<Set<M::B>>; }
!type M::C|type T = A; type A = M::C; namespace N::M { entity A in A {x: __cedar::Bool} tags A; }
!type A|namespace N::M { type T = Bool; entity B in [A, Long] {y: {z?: Action, x: N::C}, z: C}; }
!action Action::\"a\"|namespace M { type A = __cedar::datetime; type C = decimal; action b in [a, A::\"a\"] appliesTo { principal: A, resource: [A], context: ipaddr }; }
!type __cedar::T|type A = __cedar::T; namespace N { action b in Action::\"b\" appliesTo { principal: [Long, N::M::T], resource: M::A, context: A }; }
!action A::\"a\"|type A = Action; action b in A::\"a\"; namespace N { type C = A; } namespace N::M { action b in b appliesTo { principal: [A, B], resource: N::M::A }; }
!type Long|entity A in Long tags N::T; namespace N { type T = T; }
!type T|type T = __cedar::Bool; namespace N { entity B in [B, T]; }
!type C|entity B {z: C}; namespace N::M { entity B {x: Set<ipaddr>, y: B}; entity T in [T]; type T = T; }
!action M::Action::\"a\"|namespace N::M { action b in M::Action::\"a\" appliesTo { principal: [Long, N::B], resource: Long }; }
!type M::A|action b in b appliesTo { principal: [M::A, Action], resource: A }; entity T {x: decimal}; namespace N { entity B in [Action] {y?: T}; }
!type C|type A = C; entity A in A {y: A}; namespace N { entity A in A {x: T}; }
!action N::M::Action::\"b\"|action b in [N::M::Action::\"b\", b]; type C = {x: M::Action}; namespace M { action a in [M::Action::\"a\", b]; }
!type __cedar::T|type decimal = Set<Set<Bool>>; namespace M { type T = __cedar::T; action b appliesTo { principal: [M::T, B], resource: [Action, Long], context: A }; }
!type Long|action b appliesTo { principal: Long, resource: [Action, M::T], context: __cedar::Bool }; namespace M { type T = ipaddr; }
!type Long|namespace N::M { type A = __cedar::decimal; entity B in [A]; } namespace N { type T = {y?: N::T}; entity B in [Long, N::T] {z?: B}; }
!type T|action a; namespace N::M { entity T; action b in a appliesTo { principal: N::M::B, resource: [T], context: T }; entity B enum [\"u\"]; }
!action Action::\"a\"|namespace N::M {} namespace M { action b in a appliesTo { principal: [A], resource: [M::Action], context: A }; type A = A; entity A; }
!type A|entity Action in A {y?: C}; type A = __cedar::datetime; namespace N::M { type C = Action; }
!type T|namespace M {} namespace N { entity Long in T {x: {x: Set<__cedar::Bool>}}; type T = Long; }
!type N::M::A|action a appliesTo { principal: N::A, resource: N::A, context: N::M::A }; action b in N::Action::\"a\"; namespace N { entity A enum [\"u\"]; }
!type N::M::B|entity B {z?: {x: A, z: N::M::A}, y: N::M::B}; namespace N::M { action a in [Action::\"a\", b]; entity A in [B, B]; type A = N::M::Action; }
!type M::A|namespace N::M { action b appliesTo { principal: [T, Long], resource: N::M::T, context: B }; entity T in [A] {y: N::M::T}; type T = Set<M::A>; }
!type N::M::B|type T = N::M::B; namespace N::M { type A = T; action a in [N::M::Action::\"a\", N::M::Action::\"b\"]; }
!type Action|type T = Action; namespace N { entity T enum [\"u\"]; action b in N::Action::\"a\" appliesTo { principal: [N::T, T], resource: T }; } namespace N::M {}
!type A|type T = A; action b in Action::\"b\"; namespace N { type T = T; }
!type M::A|external entity A in [M::A, T]; action b in a; namespace M { action b in Action::\"b\"; type A = Set<String>; type C = A; }
!type __cedar::T|entity T enum [\"u\"]; namespace N {} namespace N::M { type T = T; entity A {z: __cedar::T, x: N::M::T} tags {}; action a; }
!type A|type T = A; namespace N { entity A in [N::T, T]; entity T in Action; }
!type T|type T = {x: __cedar::String}; namespace N { entity A enum [\"u\"]; action b appliesTo { principal: T, resource: [T], context: A }; }
!type N::A|action a in [a, Action::\"b\"] appliesTo { principal: Long, resource: Long, context: decimal }; entity Long in N::A {}; namespace M {}"
}
