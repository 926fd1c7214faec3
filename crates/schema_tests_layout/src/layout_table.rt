// Texts, and how a second program lays them out, which was written from the definitions in Python. A line is the text
// laid out, or behind `!` what is said of a text that is refused, and then behind `|` the text. ␤ stands for a line
// feed and ␍ for a carriage return.

/// Texts laid out without empty lines.
pub fn laid_lines() -> &'static str {
    "\
@doc(\"x\")␤namespace N {␤  entity A, B in [C, D] = {␤    x: Long,␤    \"y\"?: Set<{␤      z: Long␤    }>␤  } tags A; \
//t␤  //own␤  action a;␤}␤|@doc(\"x\") namespace N{entity A,B in [C,D]={x:Long,\"y\"?:Set<{z:Long}>}tags A;//t␤//own␤a\
ction a;}
|
| ␤\t␍␤
//x␤|//x
//x ␤//y␤|  //x ␍␤//y␍
entity A;␤//x␤|entity A;␍//x
entity A; //x␤|entity A;//x
entity A;␤//x␤//y␤|entity A;␤␤//x␤␤␤//y
entity A //x␤; //y␤|entity A//x␤␤␤;\u{2028}//y
@ //c␤a␤entity A;␤|@//c␤a entity A;
@a //c␤(\"x\")␤entity A;␤|@a//c␤(\"x\")entity A;
@a( //c␤\"x\" //d␤) //e␤entity A;␤|@a(//c␤\"x\"//d␤)//e␤entity A;
entity A { //x␤};␤|entity A {//x␤};
entity A {␤  //x␤};␤|entity A {␤//x␤};
entity A {␤  x: Long //x␤};␤|entity A {x:Long//x␤};
entity A {␤  x //x␤  :␤  //y␤  Long,␤};␤|entity A {x//x␤:␤//y␤Long,};
entity namespace {␤  x: namespace::B,␤  y: C␤};␤|entity namespace{x:namespace::B,y:C};
entity A {␤  @a␤  namespace: {␤    x: L,␤    y: L␤  },␤  @b(\"\")␤  namespace?: {␤    x: L,␤    y: L␤  }␤};␤|entity A{\
@a namespace:{x:L,y:L},@b(\"\")namespace?:{x:L,y:L}};
namespace namespace::B {␤  entity A, B;␤  type T = {};␤}␤namespace C {}␤|namespace namespace::B{entity A,B;type T={};}\
namespace C{}
namespace N {␤  //only␤}␤|namespace N{␤//only␤}
namespace N {}␤namespace M {}␤|namespace N{}␤␤␤namespace M{}␤␤
action a, b in [A::\"x\", c] appliesTo {␤  principal: [A, B],␤  resource: A,␤  context: {}␤};␤|action a,b in[A::\"x\",\
c]appliesTo{principal:[A,B],resource:A,context:{}};
action a appliesTo {␤  principal: A,␤  resource: [B,],␤  context: C::D,␤};␤|action a appliesTo{principal:A,resource:[B\
,],context:C::D,};
entity E enum [\"a\", \"b\",];␤|entity E enum[\"a\",\"b\",];
@a␤namespace //c␤N //d␤{␤  entity A, B;␤}␤|@a namespace//c␤N//d␤{entity A,B;}
entity A in [] = {} tags Set<{␤  a: Set<Long>␤}>;␤|entity A in[]={}tags Set<{a:Set<Long>}>;
entity A = {␤  x: {␤    y: {␤      z: Long,␤    },␤  },␤} tags {␤  b: Long␤};␤|entity A={x:{y:{z:Long,},},}tags{b:Long\
};
external entity A, B in [C];␤external action a;␤|external entity A,B in[C];external action a;
type T = Set<Set<{␤  \"a b\": T␤}>>; //x␤//y␤//z␤|type T=Set<Set<{\"a b\":T}>>;//x␤//y␤␤//z
@a␤@b(\"c\")␤@in␤entity A;␤@d␤action \"x\", y;␤|@a@b(\"c\")@in entity A;@d action \"x\",y;
entity A;␤entity B;␤entity C;␤|entity A;entity B;␤␤␤␤entity C;
namespace N {␤  entity A;␤  entity B;␤}␤|namespace N{␤␤entity A;␤␤entity B;␤␤}␤␤
entity A = {␤  x: Long,␤  y: Long␤};␤|entity A={␤␤x:Long,␤␤y:Long␤␤};
entity A = {␤  //x␤  //y␤  z: Long␤};␤|entity A={␤//x␤␤//y␤␤z:Long};
@a␤entity A, B;␤//x␤//y␤//z␤|@a␤␤entity A␤␤,␤␤B;␤␤//x␤␤//y␤ ␤\t␤//z
entity A;␤entity B;␤entity C;␤entity D;␤|entity A;␍␤␍␤entity B;␍␍entity C;␤␍entity D;
//x␤entity A;␤|␤␤␤//x␤␤␤entity A;␤␤␤
namespace N { //x␤  entity A; //y␤  //z␤}␤|namespace N{//x␤␤entity A;//y␤␤//z␤␤}
action \"//\\\"\" //\"␤;␤|action\"//\\\"\"//\"␤;
entity entity {␤  entity: entity␤};␤type type = type;␤|entity entity{entity:entity};type type=type;
action appliesTo in action::\"in\" appliesTo {␤  resource: resource,␤  principal: principal␤};␤|action appliesTo in ac\
tion::\"in\"appliesTo{resource:resource,principal:principal};
!unexpected end of input|entity A
!invalid token|entity A ~
!duplicate annotations: `a`|@a @a entity A;
!unexpected token `in`|entity A { in: Long };
!invalid token|entity A; \"x
"
}

/// Texts laid out with empty lines kept, where that is another text.
pub fn kept_lines() -> &'static str {
    "\
entity A;␤␤//x␤␤//y␤|entity A;␤␤//x␤␤␤//y
entity A //x␤␤; //y␤|entity A//x␤␤␤;\u{2028}//y
namespace N {}␤␤namespace M {}␤|namespace N{}␤␤␤namespace M{}␤␤
type T = Set<Set<{␤  \"a b\": T␤}>>; //x␤//y␤␤//z␤|type T=Set<Set<{\"a b\":T}>>;//x␤//y␤␤//z
entity A;␤entity B;␤␤entity C;␤|entity A;entity B;␤␤␤␤entity C;
namespace N {␤  entity A;␤␤  entity B;␤}␤|namespace N{␤␤entity A;␤␤entity B;␤␤}␤␤
entity A = {␤  x: Long,␤␤  y: Long␤};␤|entity A={␤␤x:Long,␤␤y:Long␤␤};
entity A = {␤  //x␤␤  //y␤␤  z: Long␤};␤|entity A={␤//x␤␤//y␤␤z:Long};
@a␤␤entity A, B;␤␤//x␤␤//y␤␤//z␤|@a␤␤entity A␤␤,␤␤B;␤␤//x␤␤//y␤ ␤\t␤//z
entity A;␤␤entity B;␤entity C;␤entity D;␤|entity A;␍␤␍␤entity B;␍␍entity C;␤␍entity D;
//x␤␤entity A;␤|␤␤␤//x␤␤␤entity A;␤␤␤
namespace N { //x␤␤  entity A; //y␤␤  //z␤}␤|namespace N{//x␤␤entity A;//y␤␤//z␤␤}
!unexpected end of input|entity A
!invalid token|entity A ~
!duplicate annotations: `a`|@a @a entity A;
!unexpected token `in`|entity A { in: Long };
!invalid token|entity A; \"x
"
}
