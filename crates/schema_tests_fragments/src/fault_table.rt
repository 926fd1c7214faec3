// Texts, and what a second program says of their trees, which was written from the definitions in Python. A line is the answer, then
// behind `|` the text. ␤ stands for a line feed in a name. Faults have their names and places, warnings too, each place as
// `@` and its two ends, or `@-` where there is none.

/// Texts whose trees have faults.
pub fn fault_lines() -> &'static str {
    "\
twice A@7-8@10-11|entity A, A;
twice A@7-8@10-11|entity A, A, A;
twice a␤@7-12@14-19|action \"a\\n\", \"a\\n\";
missing resource a␤@7-12|action \"a\\n\" appliesTo { principal: A };
twice A@21-22@24-25; twice b@50-51@53-54|namespace N { entity A, A; } namespace M { action b, b; }
missing resource a@17-18|entity A; action a appliesTo { principal: A };
keyword Long@5-9|type Long = Bool;
reserved __cedar@7-14|entity __cedar;
empty principal a@7-8@21-34|action a appliesTo { principal: [], principal: [] };
principal a@21-33@35-48|action a appliesTo { principal: A, principal: [] };
resource a@21-32@34-45|action a appliesTo { resource: A, resource: B, principal: A };
missing resource a@7-8|action a appliesTo { context: {} };
context a@21-32@34-45|action a appliesTo { context: {}, context: {} };
missing resource a@7-8|action a, b appliesTo { principal: A };
missing principal a@7-8|action a appliesTo { resource: A };
keyword Long@5-9|type Long = Bool; type __cedar = Bool;
reserved __cedar@5-12|type __cedar = Bool; type Long = Bool;
twice A@20-21@23-24|action a, a; entity A, A;
twice a@37-38@40-41|type T = Long; type T = Long; action a, a;
reserved __cedar@21-28|namespace N { entity __cedar; }
reserved A::__cedar@10-20|namespace A::__cedar {}
reserved __cedar@21-28; keyword Long@51-55|namespace N { entity __cedar; } namespace M { type Long = Bool; }
twice a@7-8@10-13|action a, \"a\";
twice A@7-8@43-44|entity A; namespace N { entity A; } entity A;
twice __cedar@7-14@19-26|entity __cedar, A, __cedar;
reserved __cedar@10-17; twice A@56-57@59-60|namespace __cedar { entity A, A; } namespace N { entity A, A; }
missing resource a@21-22; missing principal b@58-59|namespace N { action a appliesTo { principal: A }; action b appliesTo { resource: A }; }
twice A@22-23@47-48|namespace N {} entity A; namespace N {} entity A;
empty principal b@7-10@23-36; principal go@92-106@123-140|action \"b\" appliesTo { principal: [], resource: A, principal: N::B }; action go appliesTo { principal: [A], resource: [A], principal: [A, B], context: {} };
reserved __cedar@30-37|type decimal = Set<A>; entity __cedar;
twice c@31-34@73-76|namespace M { entity T; action \"c\", a appliesTo { resource: [] }; action \"c\", b appliesTo { principal: [A, B], principal: [] }; }
reserved __cedar@41-48; keyword Record@135-141|entity C; action a; namespace R { entity __cedar, B, Record { x: Long }; type A = {}; entity C, T { x: Long }; } namespace A::B { type Record = Set<A>; type Set = Long; }
principal b@34-49@51-65|action b appliesTo { resource: A, principal: N::B, principal: [A], resource: [] };
reserved __cedar@27-34|entity T { x: Long }; type __cedar = Set<A>;
twice see@16-21@23-26|external action \"see\", see; namespace M {  }
keyword Set@5-8|type Set = {}; entity B, Set enum [\"x\"];
keyword Set@5-8|type Set = Set<A>;
empty principal b@70-73@86-99|namespace S { entity T in A; entity B, C, decimal { x: Long }; action \"b\" appliesTo { principal: [], principal: [], context: {}, resource: [] }; } action a;
reserved A::__cedar@92-102|action b appliesTo { resource: [], context: {}, principal: N::B, resource: [A] }; namespace A::__cedar { type decimal = Set<A>; entity T; action \"a\", \"b\"; }
reserved __cedar@24-31|namespace A::B { entity __cedar in A; }
empty resource c@117-118@131-143|namespace Q { type decimal = Long; entity decimal, Set { x: Long }; } namespace P { action b, a; type T = {}; action c appliesTo { resource: [], principal: [A] }; }
principal c@23-35@65-79|action \"c\" appliesTo { principal: A, context: C, resource: N::B, principal: [A] };
keyword Record@5-11|type Record = {};
keyword Record@24-30|external action b; type Record = Long;
reserved __cedar::A@10-20; reserved A::__cedar@96-106; twice __cedar@56-63@65-72|namespace __cedar::A { external action c, see; } entity __cedar, __cedar { x: Long }; namespace A::__cedar { entity Set enum [\"x\"]; } type String = Set<A>;
reserved __cedar@78-85|action c appliesTo { resource: [], resource: N::B, resource: [A, B] }; entity __cedar in A;
twice C@16-17@22-23|external entity C, T, C; action \"go\";
reserved __cedar@7-14|entity __cedar in A;
principal see@43-58@76-91|namespace N::M {  } action see appliesTo { principal: N::B, resource: N::B, principal: N::B, resource: N::B };
twice b@24-25@44-45|namespace N::M { action b; action a; action b appliesTo { resource: [] }; } external action \"a\", see;
reserved __cedar@24-31|namespace M {  } entity __cedar, String;
missing resource a@7-8|action a appliesTo { principal: A, context: {} };
twice T@7-8@15-16|entity T, Set, T { x: Long }; action go appliesTo { principal: [A, B] }; entity C, decimal enum [\"x\"];
twice Record@34-40@75-81|action a; namespace A::B { entity Record { x: Long }; external entity Set, Record, Long; }
reserved __cedar@49-56|type A = {}; namespace R { action \"go\"; } entity __cedar; type __cedar = Long;
keyword Record@5-11|type Record = Set<A>;
twice go@64-66@68-72|namespace N { type Long = {}; entity Record { x: Long }; action go, \"go\" appliesTo { principal: A, principal: N::B, resource: [A, B] }; }
keyword String@5-11|type String = {}; entity C;
reserved __cedar@51-58; reserved __cedar@10-17|entity B, __cedar enum [\"x\"]; namespace M { entity __cedar; type __cedar = {}; type Set = Set<A>; } type B = {}; namespace N { entity B; }
twice c@27-28@91-92|namespace Q { action \"go\", c appliesTo { principal: N::B, resource: [A] }; external action c, b; action c, \"see\" appliesTo { principal: [A, B] }; } namespace N {  }
reserved A::__cedar@56-66|namespace P { entity __cedar, A enum [\"x\"]; } namespace A::__cedar { entity T { x: Long }; }
reserved __cedar@30-37|action see; entity String, T, __cedar { x: Long }; namespace P { action go, \"see\" appliesTo { principal: A, resource: [A], context: {} }; }
twice A@143-144@146-147|namespace Q { entity __cedar { x: Long }; entity Record; type A = Long; } entity B, Long { x: Long }; namespace A::B { type A = Set<A>; entity A, A, C; }
empty resource a@24-25@38-50|namespace N::M { action a appliesTo { resource: [] }; }
reserved __cedar::A@37-47|entity decimal enum [\"x\"]; namespace __cedar::A {  }
reserved A::__cedar@20-30; reserved __cedar::A@103-113|action c; namespace A::__cedar { type decimal = {}; type Record = {}; type decimal = Long; } namespace __cedar::A {  }
keyword Long@68-72|namespace N { external entity decimal, Set, T; } namespace R { type Long = {}; }
empty resource c@86-87@105-117|entity B { x: Long }; type Set = Long; namespace N { entity Record, C, Long; } action c, \"b\" appliesTo { resource: [], resource: [], principal: [A, B] };
reserved __cedar@47-54|namespace A::B { type decimal = Set<A>; entity __cedar, C enum [\"x\"]; action \"see\"; }
reserved A::__cedar@10-20|namespace A::__cedar { external action go; } namespace M { type Set = {}; }
resource b@23-37@58-71|action \"b\" appliesTo { resource: N::B, principal: [A, B], resource: [A], context: {} }; entity A enum [\"x\"];
twice C@101-102@104-105|external action a, c; entity Long, C { x: Long }; namespace P { external entity __cedar, Set; entity C, C, T { x: Long }; entity C, A { x: Long }; } namespace N {  }
resource a@59-70@72-84; reserved __cedar@5-12|type __cedar = Long; namespace N::M { action a appliesTo { resource: A, resource: [] }; entity A; }
missing resource a@61-62|namespace M { entity C, decimal in A; action \"c\", go; action a appliesTo { principal: N::B }; }
twice Record@29-35@52-58|namespace Q { entity String, Record, Set; entity C, Record, Set { x: Long }; } external action c; namespace A::B { entity Long { x: Long }; } entity A enum [\"x\"];
empty principal c@7-10@23-36|action \"c\" appliesTo { principal: [], resource: [], principal: [] };
missing resource go@7-9|action go appliesTo { principal: [A] };
reserved A::__cedar@84-94|action go appliesTo { context: { x: Long }, principal: A, resource: [] }; namespace A::__cedar { entity Record { x: Long }; type A = {}; } entity T in A;
keyword Long@26-30|external action see; type Long = Long; action b, \"c\";
twice see@74-77@106-111|external entity __cedar, Set, C; namespace M {  } namespace N::M { action see, \"b\"; entity C in A; action \"see\" appliesTo { principal: [], resource: [] }; }
missing resource c@21-22|namespace Q { action c appliesTo { principal: [A], context: {} }; } entity Record, T enum [\"x\"];
twice c@7-8@10-11|action c, c;
twice B@62-63@65-66|type decimal = Set<A>; type decimal = Set<A>; external entity B, B;
resource a@21-35@37-49|action a appliesTo { resource: N::B, resource: [], principal: [] };
keyword String@74-80|namespace N { external action \"c\"; entity Long, Set; } namespace N { type String = {}; action \"go\" appliesTo { resource: A, principal: [A] }; type Record = {}; }
resource b@23-37@55-68|action \"b\" appliesTo { resource: N::B, principal: [A], resource: [A], principal: A };
empty principal c@90-93@106-119|entity decimal { x: Long }; action a appliesTo { principal: N::B, resource: [A] }; action \"c\" appliesTo { principal: [], principal: N::B, resource: [], resource: [] };
resource go@24-35@37-49; empty resource b@109-112@125-137|action \"go\" appliesTo { resource: A, resource: [], resource: [A, B] }; namespace N { type T = Long; } action \"b\" appliesTo { resource: [] };
principal a@35-49@51-64|namespace N { action a appliesTo { principal: [A], principal: [] }; type B = Long; } namespace P { action \"go\"; external action a; }
missing resource go@29-31|entity A { x: Long }; action go, see appliesTo { principal: [A] };
keyword Record@19-25|namespace P { type Record = {}; external action \"see\", c; } action c appliesTo { resource: [A, B], principal: N::B };
resource see@76-92@133-145; reserved __cedar@27-34|external entity B, Record, __cedar; namespace A::B { action see appliesTo { resource: [A, B], context: { x: Long }, principal: N::B, resource: [] }; }
reserved __cedar::A@10-20; twice go@51-53@55-59|namespace __cedar::A { action \"see\", see; } action go, \"go\" appliesTo { principal: [A, B], resource: [A, B] };
missing principal a@7-8|action a appliesTo { resource: N::B }; namespace M {  } action see, \"b\";
resource go@22-36@38-51|action go appliesTo { resource: N::B, resource: [A] };
empty principal go@7-9@35-48; empty principal b@59-60@73-86|action go appliesTo { resource: A, principal: [] }; action b appliesTo { principal: [], principal: [A, B], principal: N::B }; type __cedar = {};
reserved A::__cedar@10-20; reserved __cedar::A@47-57; twice Set@73-76@78-81|namespace A::__cedar { action see; } namespace __cedar::A {  } entity C, Set, Set in A;
context see@23-34@36-56|action see appliesTo { context: {}, context: { x: Long } }; namespace A::B {  }
keyword String@5-11|type String = {}; namespace N { external action go; }
keyword Record@27-33|entity T { x: Long }; type Record = Set<A>;
twice Long@21-25@27-31; reserved __cedar@53-60|namespace P { entity Long, Long, Record; } namespace __cedar { type __cedar = Set<A>; }
empty principal c@21-22@39-52; missing principal see@82-87|namespace P { action c, go appliesTo { principal: [] }; type Set = Long; } action \"see\", go appliesTo { resource: N::B };
empty resource c@21-24@40-52|namespace R { action \"c\", a appliesTo { resource: [], resource: [] }; }
missing principal see@7-12|action \"see\" appliesTo { resource: N::B, context: {} }; action \"b\";
reserved __cedar@21-28; empty resource see@83-86@121-133|namespace M { entity __cedar, Set; entity B in A; } entity Set { x: Long }; action see appliesTo { context: { x: Long }, resource: [], resource: [], principal: N::B };
keyword Record@46-52|namespace Q { entity decimal enum [\"x\"]; type Record = Long; }
empty resource b@7-8@28-40|action b, \"see\" appliesTo { resource: [], principal: [A] };
empty principal go@7-9@27-40|action go, \"c\" appliesTo { principal: [], context: C, resource: [A, B] };
empty resource a@7-8@25-37|action a, go appliesTo { resource: [], resource: [A, B] };
empty resource a@7-8@26-38|action a, see appliesTo { resource: [], context: {}, principal: [] };
missing resource see@21-24|namespace Q { action see appliesTo { principal: [A, B] }; }
keyword Long@5-9|type Long = Set<A>;
missing resource see@24-27; empty principal c@81-82@95-108|namespace A::B { action see appliesTo { principal: [A, B] }; type T = {}; action c appliesTo { principal: [], resource: N::B }; }
empty principal go@7-9@50-63|action go appliesTo { resource: [A], context: {}, principal: [], context: {} }; entity T { x: Long };
resource b@23-39@41-53|action \"b\" appliesTo { resource: [A, B], resource: [], resource: [A, B] };
missing resource go@85-89|entity String, Set, T { x: Long }; namespace M { type Set = Set<A>; action b; action \"go\" appliesTo { context: { x: Long } }; }
keyword Set@5-8|type Set = Long;
resource go@54-67@69-85; reserved __cedar@122-129|namespace Q { action \"go\" appliesTo { principal: [A], resource: [A], resource: [A, B], resource: [] }; action c; } entity __cedar;
reserved __cedar::A@43-53; twice a@7-10@66-67|action \"a\"; external action see; namespace __cedar::A {  } action a;
missing principal a@7-8|action a appliesTo { resource: [A] };
missing resource c@21-22; reserved __cedar@145-152|namespace R { action c appliesTo { context: {}, principal: A }; type C = Long; external action see; } type Set = {}; entity decimal in A; entity __cedar, B;
resource a@75-89@91-105|namespace R { type decimal = Set<A>; action a, b appliesTo { principal: A, resource: N::B, resource: N::B, resource: N::B }; external entity B, T, Set; }
empty resource b@7-8@24-36|action b, a appliesTo { resource: [], resource: N::B };
reserved __cedar@10-17; reserved A::__cedar@33-43|namespace __cedar {  } namespace A::__cedar { type __cedar = {}; }
context go@22-32@34-45|action go appliesTo { context: C, context: {} };
empty resource see@44-47@60-72; keyword Set@126-129|namespace M { type __cedar = Set<A>; action see appliesTo { resource: [] }; external action go; } entity Set enum [\"x\"]; type Set = {};
principal b@23-37@52-67|action \"b\" appliesTo { principal: [A], context: {}, principal: N::B };
twice A@21-22@47-48|namespace N { entity A; } namespace N { entity A; }
twice A@21-22@119-120; twice A@33-34@95-96|namespace N { entity A; } entity A; namespace M { entity A; } namespace N { entity B; } entity A; namespace N { entity A; }
reserved __cedar@10-17|namespace __cedar { } namespace __cedar { entity A, A; }
twice B@21-22@70-71|namespace N { entity B; action a; } namespace N { action a; entity A, B; }
twice a@21-22@78-81; twice T@45-46@104-105|namespace M { action a; } namespace N { type T = Long; } namespace M { action \"a\"; } namespace N { type T = Bool; }
twice T@22-23@89-90|namespace A::B { type T = Long; } namespace A { type T = Long; } namespace A :: B { type T = Long; }
twice B@24-25@53-54|namespace N { entity A, B; } namespace N { entity C, B, A; } namespace N { entity A; }
keyword Set@19-22; missing resource a@125-126|namespace N { type Set = Long; } namespace M { type Long = Bool; } namespace N { type __cedar = Long; } namespace M { action a appliesTo { principal: A }; }
resource a@83-94@96-107|@a(\"\") namespace N { entity T in B; } @doc(\"x\") namespace N { action a appliesTo { resource: A, resource: B }; }
missing resource go@72-74|@a @doc(\"\") namespace N { } namespace P { } @a(\"\") namespace P { action go appliesTo { context: {} }; }
reserved N::__cedar@36-46|namespace M { entity A; } namespace N::__cedar { } @doc(\"y\") @a(\"x\") namespace M { entity B; entity C; }
resource go@96-107@109-120|@b(\"\") @a(\"\") namespace N { type T = Long; entity B in B; } namespace N { action go appliesTo { resource: A, resource: B }; }
reserved __cedar@46-53|namespace N { entity decimal { x: A }; entity __cedar; } namespace N { }
keyword Bool@166-170; reserved __cedar@89-96|@a(\"y\") @doc(\"y\") namespace N { } @in(\"x\") namespace M { type ipaddr = { y?: B }; entity __cedar; } @b(\"\") namespace P { entity decimal; } @b(\"x\") namespace N { type Bool = Long; }
keyword Set@74-77|namespace P { entity Long; } namespace N { entity C; } namespace N { type Set = Long; action b; } @b(\"y\") entity T;
twice ipaddr@106-112@152-158|@in(\"x\") namespace N { entity T; } namespace N { entity B { x: A }; } @b(\"y\") @in(\"x\") namespace N { type ipaddr = Set<A>; } @a(\"y\") namespace N { type ipaddr = Long; type A = Set<A>; }
twice T@44-45@75-76|@a(\"y\") namespace M { entity B in B; entity T in B; } namespace M { entity T; entity A in B; } @a namespace M { } @b(\"\") namespace N { @b(\"y\") entity B; }
missing resource a@56-57|entity decimal; entity A; @in(\"y\") namespace N { action a appliesTo { principal: A }; } @b(\"\") namespace N { entity A; }
reserved __cedar@24-31; reserved __cedar@91-98|namespace M::N { entity __cedar; action go appliesTo { context: {} }; } namespace N { type __cedar = Long; } action a in a; @b(\"\") namespace N { }
keyword Bool@39-43|entity T; namespace N { entity B; type Bool = Long; } @a namespace N { action \"d e\"; } @a(\"y\") namespace M::N { }
empty principal b@111-112@125-138|@in(\"\") namespace M::N { } namespace N { @in(\"\") entity Long; } namespace M { entity B; } namespace N { action b appliesTo { principal: [], resource: A }; }
empty principal go@21-23@36-49|namespace N { action go appliesTo { principal: [], resource: A }; } @b(\"y\") namespace N { }
missing principal b@30-31; missing resource a@119-120|@in(\"y\") namespace P { action b appliesTo { resource: [A] }; } @in(\"x\") namespace N { } @doc(\"y\") namespace N { action a appliesTo { principal: A }; }
keyword Set@30-33; reserved __cedar@68-75|@b(\"y\") namespace M::N { type Set = Long; } @b namespace N { entity __cedar; } namespace M::N { } namespace N { action go in a; }
reserved __cedar@45-52; missing resource go@80-82|@a(\"y\") namespace N { } namespace N { entity __cedar; type U = Set<A>; } action go appliesTo { principal: A }; entity decimal;
empty principal go@56-58@71-84; missing resource b@141-142|namespace N { action b; } @in(\"x\") namespace N { action go appliesTo { principal: [], resource: A }; type Set = Long; } namespace M { action b appliesTo { principal: A }; entity Long in B; }
twice T@15-16@121-122|@doc(\"y\") type T = Long; @z(\"1\") namespace N { type T = Long; } @k(\"u\") @z(\"1\") namespace N { @k type U = Set<B>; } type T = Set<B>; @own namespace N { entity C { x: Long }; entity A enum [\"a\"]; }
twice C@157-158@178-179|@doc(\"p\") @z(\"1\") namespace N { } @own @z(\"1\") namespace M { @k type Bool = Long; @doc(\"y\") external action e; } type W = Long; @z(\"1\") namespace N { entity C enum [\"a\"]; entity C, E; }
missing resource c@122-123|@z(\"2\") namespace N { @doc(\"y\") type U = { a: T }; } @own @z(\"1\") namespace N { @doc(\"z\") type T = Long; @doc(\"z\") action c appliesTo { principal: A }; }
missing resource c@31-32|@doc(\"q\") namespace N { action c appliesTo { principal: A }; } @z(\"2\") namespace M { action a; @doc(\"y\") type U = { a: T }; } @doc(\"q\") @z(\"2\") namespace N { @doc(\"y\") entity A enum [\"a\"]; }
keyword Entity@187-193|@z(\"1\") namespace N { entity A; } @k(\"u\") namespace M { @k entity B enum [\"a\"]; @k action b appliesTo { principal: A, resource: B }; } @k entity A in [B]; @z(\"2\") namespace N { } @k type Entity = Long;
twice C@70-71@106-107|@doc(\"p\") namespace N { @doc(\"y\") entity D; } namespace N { @k entity C; } namespace N { @doc(\"y\") entity C { x: B }; external action e; } @k entity B { x: B };
keyword Bool@19-23|namespace N { type Bool = Long; } @k(\"v\") namespace M { type U = { a: T }; } namespace N { action d appliesTo { principal: A, resource: A, context: T }; }
keyword Bool@99-103|@k(\"v\") @z(\"1\") namespace N { @k action d in [a]; entity C; } @k(\"v\") namespace M { @doc(\"z\") type Bool = Long; } namespace N { type T = Long; @k type V = Set<B>; }
keyword Entity@96-102; empty principal c@7-8@21-34|action c appliesTo { principal: [], resource: A }; namespace N { } namespace M { @doc(\"z\") type Entity = Long; @k entity C; } @k(\"v\") @z(\"2\") namespace N { action d appliesTo { principal: A, resource: A, context: T }; }
empty principal c@87-88@101-114|@z(\"2\") namespace N { entity C enum [\"a\"]; } @own namespace N::O { entity A, F; action c appliesTo { principal: [], resource: A }; } @k(\"v\") @z(\"1\") namespace N { }
missing resource c@151-152|@k(\"v\") namespace N { @k entity A in [B]; } @k entity A in [M::A]; @k(\"v\") namespace N::O { type T = Set<B>; } @k(\"v\") @z(\"2\") namespace N { @k action c appliesTo { principal: A }; }
empty principal c@119-120@133-146|@doc(\"p\") @z(\"2\") namespace N { } @doc(\"p\") namespace M { entity D in [M::A]; } @doc(\"p\") @z(\"1\") namespace N { action c appliesTo { principal: [], resource: A }; }
twice U@24-25@146-147; twice c@77-78@114-115|@own namespace N { type U = { a: T }; } @k(\"u\") @z(\"1\") namespace M { action c appliesTo { principal: A }; action c; } @k(\"u\") namespace N { type U = { a: T }; } @doc(\"r\") namespace M { action c; }
empty principal c@119-120@133-146|@doc(\"p\") @z(\"2\") namespace N { type U = { a: T }; } @own namespace N::O { entity D enum [\"a\"]; } namespace N { action c appliesTo { principal: [], resource: A }; }
empty principal c@29-30@43-56; missing resource c@120-121|@k(\"u\") namespace N { action c appliesTo { principal: [], resource: A }; } namespace N::O { entity D enum [\"a\"]; action c appliesTo { principal: A }; } namespace N { @k type Entity = Long; entity B { x: B }; }
twice C@47-48@127-128; twice A@88-89@91-92; twice a@7-8@103-104|action a; @k(\"u\") @z(\"1\") namespace N { entity C in [B]; } @k(\"u\") namespace M { entity A, A; } action a; namespace N { entity C enum [\"a\"]; }
twice C@36-37@194-195; twice T@80-81@118-119|namespace M { type V = Long; entity C { x: Long }; } @k(\"v\") namespace N { type T = Set<B>; } @own namespace N { type T = Set<B>; action d in [a]; } namespace M::O { } @own namespace M { entity C enum [\"a\"]; @k entity D; }
missing resource c@42-43; missing resource c@105-106|@k(\"v\") namespace N { @k action a; action c appliesTo { principal: A }; } namespace M { @doc(\"x\") action c appliesTo { principal: A }; } @k(\"u\") namespace N { entity A; }
empty principal c@142-143@156-169; keyword Bool@18-22|entity D, E; type Bool = Long; @doc(\"r\") @z(\"2\") namespace N { entity D in [M::A]; } @doc(\"p\") namespace N { } @doc(\"r\") namespace N { action c appliesTo { principal: [], resource: A }; }
missing resource c@26-27; keyword Entity@90-96|@own namespace N { action c appliesTo { principal: A }; } namespace M { @k entity A; type Entity = Long; } namespace N { } namespace M { type T = Set<B>; }
missing resource c@21-22; missing resource c@95-96|namespace N { action c appliesTo { principal: A }; } @doc(\"p\") @z(\"2\") namespace M { @k action c appliesTo { principal: A }; } @k(\"v\") namespace N { } entity C { x: N::A };
twice A@61-62@193-194; twice c@7-8@120-121|action c appliesTo { principal: A }; namespace N { entity B, A; } @own namespace N::O { entity B in [M::A]; } @k action c appliesTo { principal: [], resource: A }; @z(\"2\") namespace N { entity A { x: Long }; entity D in [M::A]; }"
}

/// Texts whose trees have none.
pub fn warning_lines() -> &'static str {
    "\
ok|entity A { x: Nope, x: Long };
ok; builtin String@7-13|entity String; entity A { x: String, y: __cedar::String };
ok; builtin datetime@5-13; entity ipaddr@49-55@27-33; builtin ipaddr@27-33; builtin ipaddr@49-55|type datetime = Long; type ipaddr = Long; entity ipaddr;
ok; builtin Long@30-34|namespace N { external entity Long; }
ok; entity A@46-47@29-30; builtin Bool@7-11|entity Bool enum [\"x\"]; type A = Long; entity A;
ok; builtin duration@80-88; builtin decimal@62-69; entity A@36-37@19-20|namespace N { type A = Long; entity A; } namespace M { entity decimal; } entity duration; action Long;
ok; builtin Long@99-103; builtin Bool@84-88; builtin String@53-59; builtin Long@21-25|namespace B { entity Long; } namespace A::B { entity String; } namespace A { entity Bool; } entity Long;
ok|
ok|action a appliesTo { principal: A, resource: A };
ok|external action a; external entity A;
ok; builtin decimal@5-12|type decimal = Set<A>; action b; entity A;
ok; builtin decimal@10-17|entity A, decimal; external action b; external entity Record;
ok; builtin String@7-13|entity String, A, C in A;
ok; builtin decimal@7-14|entity decimal in A;
ok; builtin decimal@24-31|namespace A::B { entity decimal { x: Long }; } action a, c;
ok; builtin Long@36-40; builtin decimal@27-34|namespace A::B { entity A, decimal, Long { x: Long }; }
ok; builtin String@21-27|namespace R { entity String in A; }
ok; builtin Long@24-28|namespace N::M { entity Long enum [\"x\"]; }
ok; builtin Long@52-56|entity A { x: Long }; namespace N { external entity Long; }
ok; builtin Long@10-14|entity T, Long, A { x: Long };
ok; builtin Long@15-19|entity T, Set, Long in A;
ok; builtin decimal@5-12|type decimal = {};
ok; builtin decimal@7-14|entity decimal { x: Long };
ok; builtin Long@19-23|action see; entity Long, A;
ok; builtin decimal@5-12|type decimal = Long; namespace R {  }
ok; builtin String@7-13|entity String, Record, T { x: Long };
ok; builtin String@16-22; builtin decimal@7-14|entity decimal, String enum [\"x\"];
ok; builtin Long@36-40|namespace Q {  } external entity A, Long, T;
ok; builtin String@10-16|entity C, String, T in A;
ok; builtin decimal@36-43|namespace P {  } external entity A, decimal;
ok; builtin Long@27-31|action go; external entity Long;
ok; builtin decimal@7-14|entity decimal, C in A; namespace S {  }
ok; builtin Long@7-11|entity Long in A;
ok; builtin Long@41-45; builtin String@24-30; builtin decimal@32-39|namespace P {  } entity String, decimal, Long in A;
ok; builtin decimal@31-38|external action see; entity C, decimal enum [\"x\"];
ok; builtin decimal@22-29|namespace A::B { type decimal = Long; action go; entity Record, A { x: Long }; }
ok; builtin String@40-46; builtin decimal@31-38|entity Set { x: Long }; entity decimal, String { x: Long };
ok; builtin Long@7-11; builtin decimal@13-20|entity Long, decimal in A; namespace Q {  }
ok; builtin decimal@7-14|entity decimal, C; namespace S { entity C { x: Long }; } type B = Set<A>; namespace A::B {  }
ok; builtin String@16-22; builtin decimal@7-14|entity decimal, String { x: Long };
ok; builtin Long@52-56; entity A@81-82@19-20|namespace N { type A = Long; } namespace M { entity Long; } namespace N { entity A; }
ok; entity A@29-30@84-85|@in(\"\") namespace N { entity A in B; } @a namespace P { } @a(\"\") namespace N { type A = { y?: B }; }
ok; entity T@130-131@147-148; builtin decimal@37-44|@b @a namespace M::N { @b(\"\") entity decimal in B; } @b(\"y\") namespace N { type U = Long; } @a(\"x\") @in(\"x\") namespace M { entity T { x: A }; type T = Set<A>; } @in namespace M::N { }
ok; builtin ipaddr@26-32|@a(\"\") namespace N { type ipaddr = Long; entity T; } @a(\"y\") @b(\"y\") namespace N { entity C; type A = Set<A>; }
ok; builtin Long@59-63|namespace M { entity T; } namespace N { @b(\"\") @doc entity Long in B; } namespace N { action a in a; }
ok; builtin Long@21-25; builtin decimal@42-49|namespace P { entity Long; @b(\"x\") entity decimal; } namespace N { } namespace N { }
ok; builtin decimal@29-36|namespace N { @a(\"x\") entity decimal in B; } @in namespace M::N { entity B in B; type T = Set<A>; } @a @in(\"x\") namespace N { type U = Long; }"
}
