// An answer, and behind `<-` a text in the deprecated form that has it: the compact text of the value that is written of its fragment,
// or the fault of the text, and its advice. Answers that name a text that is no name have the role, the text and why. The first were
// chosen by hand, the others made at random; how they are answered was told by a second program, which was written from the definitions
// in Python.
pub const OLD_TEXTS: &str =
    r#"{"":{"actions":{},"entityTypes":{"A":{"shape":{"attributes":{"s":{"type":"Set"}},"type":"Record"}}}}} <- {"":{"entityTypes":{"A":{"shape":{"type":"Record","attributes":{"s":{"type":"Set"}}}}},"actions":{}}}
MissingField(resourceTypes) <- {"":{"entityTypes":{},"actions":{"a":{"appliesTo":{"principalTypes":[]}}}}}
MissingField(principalTypes) <- {"":{"entityTypes":{},"actions":{"a":{"appliesTo":{"resourceTypes":[]}}}}}
MissingField(resourceTypes) <- {"":{"entityTypes":{},"actions":{"a":{"appliesTo":{}}}}}
MissingField(resourceTypes) <- {"":{"entityTypes":{},"actions":{"a":{"appliesTo":{"resourceTypes":null,"principalTypes":null,"context":{"type":"*"}}}}}}
BadName(common type) * unexpected token `*` <- {"":{"entityTypes":{},"actions":{"a":{"appliesTo":{"resourceTypes":[],"principalTypes":[],"context":{"type":"*"}}}}}}
{"":{"actions":{"a":{}},"entityTypes":{}}} <- {"":{"entityTypes":{},"actions":{"a":{"appliesTo":null,"memberOf":null,"attributes":null}}}}
{"":{"actions":{},"entityTypes":{"A":{"shape":{"attributes":{"x":{"type":"Long"}},"type":"Record"}}}}} <- {"":{"entityTypes":{"A":{"shape":{"type":"Record","attributes":{"x":{"type":"Long","extra":1}}}}},"actions":{}}}
{"":{"actions":{},"entityTypes":{"A":{"shape":{"attributes":{"x":{"type":"Set"}},"type":"Record"}}}}} <- {"":{"entityTypes":{"A":{"shape":{"type":"Record","attributes":{"x":{"type":"Set","element":{"type":"Long"},"extra":1}}}}},"actions":{}}}
WrongType(actions) <- {"1":{"entityTypes":{},"actions":5}}
BadName(namespace) 1 unexpected token `1` <- {"1":{"entityTypes":{},"actions":{}}}
BadName(namespace) __cedar::x the word `__cedar` is reserved <- {"entityTypes":{"entityTypes":{},"actions":{}},"__cedar::x":{"entityTypes":{},"actions":{}}}
MissingField(entityTypes); MissingNamespace <- {"entityTypes":{},"actions":{}}
{"":{"actions":{},"entityTypes":{"A":{"shape":{"type":"Record"}}}}} <- {"":{"entityTypes":{"A":{"shape":{"type":"Record","attributes":{},"required":true}}},"actions":{}}}
{"":{"actions":{},"entityTypes":{"A":{"shape":{"attributes":{"x":{"attributes":{},"required":false,"type":"Record"}},"type":"Record"}}}}} <- {"":{"entityTypes":{"A":{"shape":{"type":"Record","attributes":{"x":{"type":"Record","attributes":{},"required":false}}}}},"actions":{}}}
{"":{"actions":{},"entityTypes":{"A":{"shape":{"type":"EntityOrCommon"}}}}} <- {"":{"entityTypes":{"A":{"shape":{"type":"EntityOrCommon","name":5}}},"actions":{}}}
{"":{"actions":{},"commonTypes":{"T":{"type":"Set"}},"entityTypes":{}}} <- {"":{"entityTypes":{},"actions":{},"commonTypes":{"T":{"type":"Set","element":5}}}}
{"":{"actions":{},"commonTypes":{"T":{"type":"Record"}},"entityTypes":{}}} <- {"":{"entityTypes":{},"actions":{},"commonTypes":{"T":{"type":"Record","attributes":{"x":{"type":"Long","required":1}}}}}}
{"":{"actions":{},"commonTypes":{"T":{"type":"Record"}},"entityTypes":{}}} <- {"":{"entityTypes":{},"actions":{},"commonTypes":{"T":{"type":"Record","attributes":{"x":{}}}}}}
{"":{"actions":{},"commonTypes":{"T":{"type":"Record"}},"entityTypes":{}}} <- {"":{"entityTypes":{},"actions":{},"commonTypes":{"T":{"type":"Record","attributes":{"x":{"type":"Long"}},"additionalAttributes":1}}}}
{"":{"actions":{},"commonTypes":{"T":{"additionalAttributes":true,"attributes":{"x":{"required":false,"type":"Long"}},"type":"Record"}},"entityTypes":{}}} <- {"":{"entityTypes":{},"actions":{},"commonTypes":{"T":{"type":"Record","attributes":{"x":{"type":"Long","required":false}},"additionalAttributes":true}}}}
ReservedCommonType(Set) <- {"":{"entityTypes":{},"actions":{},"commonTypes":{"Set":{"type":"Long"}}}}
BadName(entity type) A::in the word `in` is reserved <- {"":{"entityTypes":{},"actions":{},"commonTypes":{"T":{"type":"Entity","name":"A::in"}}}}
{"":{"actions":{},"commonTypes":{"T":{"name":"A::B","type":"Entity"}},"entityTypes":{}}} <- {"":{"entityTypes":{},"actions":{},"commonTypes":{"T":{"type":"Entity","name":"A::B"}}}}
BadName(extension type) a::b unexpected token `::` <- {"":{"entityTypes":{},"actions":{},"commonTypes":{"T":{"type":"Extension","name":"a::b"}}}}
{"":{"actions":{},"commonTypes":{"T":{"name":"decimal","type":"Extension"}},"entityTypes":{}}} <- {"":{"entityTypes":{},"actions":{},"commonTypes":{"T":{"type":"Extension","name":"decimal"}}}}
{"":{"actions":{},"commonTypes":{"T":{"type":"Extension"}},"entityTypes":{}}} <- {"":{"entityTypes":{},"actions":{},"commonTypes":{"T":{"type":"Extension","name":"decimal","zz":1}}}}
WrongType(type) <- {"":{"entityTypes":{},"actions":{},"commonTypes":{"T":{"type":5}}}}
MissingField(type) <- {"":{"entityTypes":{},"actions":{},"commonTypes":{"T":{}}}}
WrongType(T) <- {"":{"entityTypes":{},"actions":{},"commonTypes":{"T":[]}}}
{"":{"actions":{"v":{"appliesTo":{"principalTypes":["B"],"resourceTypes":["A"]},"attributes":{},"memberOf":[{"id":"w","type":"N::Action"},{"id":"u"}]}},"entityTypes":{"A":{"memberOfTypes":["B","C::D"]}}}} <- {"":{"entityTypes":{"A":{"memberOfTypes":["B","C::D"]}},"actions":{"v":{"attributes":{"x":1,"y":2},"memberOf":[{"id":"w","type":"N::Action"},{"id":"u"}],"appliesTo":{"resourceTypes":["A"],"principalTypes":["B"]}}}}}
BadName(name) 1 unexpected token `1` <- {"":{"entityTypes":{"A":{"memberOfTypes":["1"]}},"actions":{},"commonTypes":{"T":{"type":"~"}}}}
MissingField(resourceTypes) <- {"":{"entityTypes":{"A":{"shape":{"type":"~"}}},"actions":{"a":{"appliesTo":{}}},"commonTypes":{"T":{"type":""}}}}
BadName(common type)  unexpected end of input <- {"":{"entityTypes":{"A":{"shape":{"type":"~"}}},"actions":{},"commonTypes":{"T":{"type":""}}}}
UnknownField(tags) <- {"":{"entityTypes":{"A":{"tags":{"type":"Long"}}},"actions":{}}}
UnknownField(external) <- {"":{"entityTypes":{},"actions":{"a":{"external":false}}}}
UnknownField(annotations) <- {"":{"entityTypes":{},"actions":{},"annotations":{}}}
Float <- {"":{"entityTypes":{},"actions":{"a":{"attributes":{"x":1.5}}}}}
RepeatedKey(entityTypes) <- {"":{"entityTypes":{},"entityTypes":{},"actions":{}}}
{"A":{"actions":{},"entityTypes":{}},"A0":{"actions":{},"entityTypes":{}},"A::B":{"actions":{},"entityTypes":{}}} <- {"A::B":{"entityTypes":{},"actions":{}},"A":{"entityTypes":{},"actions":{}},"A0":{"entityTypes":{},"actions":{}}}
BadName(common type) a b unexpected token `b` <- {"B":{"entityTypes":{},"actions":{"a":{"appliesTo":{"resourceTypes":[]}}}},"C ":{"entityTypes":{},"actions":{}},"A":{"entityTypes":{"X":{"shape":{"type":"a b"}}},"actions":{}}}
NotJson; CedarFormat <- entity A;
WrongType(); CedarFormat <- []
{} <- {}
NotJson <-  
NotJson <- {"a":1
UnknownField(zz) <- {"":{"entityTypes":{},"actions":{"a":{"memberOf":[{"id":"x","zz":1}]}}}}
UnknownField(zz) <- {"":{"entityTypes":{},"actions":{"a":{"appliesTo":{"resourceTypes":[],"principalTypes":[],"zz":[]}}}}}
{"":{"actions":{},"entityTypes":{"A":{"shape":{"attributes":{"x":{"element":{"attributes":{"y":{"name":"E","type":"Entity"}},"type":"Record"},"type":"Set"}},"type":"Record"}}}}} <- {"":{"entityTypes":{"A":{"shape":{"type":"Record","attributes":{"x":{"type":"Set","element":{"type":"Record","attributes":{"y":{"type":"Entity","name":"E"}}}}}}}},"actions":{}}}
MissingField(actions) <- {"":{"entityTypes":{},"commonTypes":{"T":{"type":"x y"}}}}
MissingField(type) <- {"N":{"entityTypes":{"a::b":{"shape":{"type":"Long"}}},"actions":{"a":{"appliesTo":{"resourceTypes":["E"],"principalTypes":["E","N::F"],"context":{"type":"T"}}},"b c":{}},"commonTypes":{"U":{"1":"N::T"}}}}
UnknownField(Set) <- {"":{"entityTypes":{"G":{},"E":{"shape":{"type":"Extension","name":"ipaddr"}}},"actions":{"b c":{"appliesTo":{"resourceTypes":["E"],"principalTypes":[],"Set":{"type":"Set","element":{"type":"Record","attributes":{}}}}}},"commonTypes":{"U":{"type":"Extension","name":"ipaddr"}}}}
{"N":{"actions":{"b c":{"appliesTo":{"principalTypes":["E","N::F"],"resourceTypes":["E"]},"memberOf":[{"id":"a"}]}},"entityTypes":{"E":{"shape":{"element":{"type":"Long"},"type":"Set"}}}}} <- {"N":{"entityTypes":{"E":{"shape":{"type":"Set","element":{"type":"Long"}}}},"actions":{"b c":{"appliesTo":{"resourceTypes":["E"],"principalTypes":["E","N::F"]},"memberOf":[{"id":"a"}]}}}}
WrongType(commonTypes) <- {"A::B":{"entityTypes":{"G":{"memberOfTypes":["N::E"]}},"actions":{"b c":{"appliesTo":{"resourceTypes":["E"],"principalTypes":[]}}},"commonTypes":[]}}
UnknownField(zz) <- {"":{"entityTypes":{"F":{"memberOfTypes":["E"]},"G":{}},"actions":{"v":{"appliesTo":{"resourceTypes":["E"],"principalTypes":[],"context":{"type":"Set","element":{"type":"EntityOrCommon"}}}}},"commonTypes":{"T":{"type":"Set","element":{"type":"Extension","name":"decimal"}}},"zz":5}}
{"A::B":{"actions":{"a":{"appliesTo":{"context":{"type":"N::T"},"principalTypes":[],"resourceTypes":["E"]}},"b c":{}},"commonTypes":{"T":{"type":"String"}},"entityTypes":{"E":{}}}} <- {"A::B":{"entityTypes":{"E":{}},"actions":{"a":{"appliesTo":{"resourceTypes":["E"],"principalTypes":[],"context":{"type":"N::T"}}},"b c":{}},"commonTypes":{"T":{"type":"String"}}}}
{"A::B":{"actions":{"v":{"appliesTo":{"context":{"name":"N::E","type":"Entity"},"principalTypes":[],"resourceTypes":["E"]}}},"commonTypes":{"T":{"type":"EntityOrCommon"}},"entityTypes":{"F":{"memberOfTypes":["E"]}}}} <- {"A::B":{"entityTypes":{"F":{"memberOfTypes":["E"]}},"actions":{"v":{"appliesTo":{"resourceTypes":["E"],"principalTypes":[],"context":{"type":"Entity","name":"N::E"}}}},"commonTypes":{"T":{"type":"EntityOrCommon","name":"in"}}}}
{"A::B":{"actions":{"a":{"appliesTo":{"context":{"type":"N::T"},"principalTypes":[],"resourceTypes":["E"]}}},"entityTypes":{"G":{"memberOfTypes":["E"],"shape":{"type":"Long"}}}},"N":{"actions":{"a":{"appliesTo":{"context":{"name":"E","type":"Entity"},"principalTypes":[],"resourceTypes":["E"]}}},"entityTypes":{"E":{},"F":{"shape":{"element":{"type":"EntityOrCommon"},"type":"Set"}}}}} <- {"A::B":{"entityTypes":{"G":{"memberOfTypes":["E"],"shape":{"type":"Long"}}},"actions":{"a":{"appliesTo":{"resourceTypes":["E"],"principalTypes":[],"context":{"type":"N::T"}}}}},"N":{"entityTypes":{"F":{"shape":{"type":"Set","element":{"type":"EntityOrCommon"}}},"E":{}},"actions":{"a":{"appliesTo":{"resourceTypes":["E"],"principalTypes":[],"context":{"type":"Entity","name":"E"}}}}}}
UnknownField(in) <- {"A::B":{"entityTypes":{"F":{"in":"1"},"E":{"memberOfTypes":["E"],"shape":{"type":"T"}}},"actions":{"b c":{"memberOf":[{"id":"b c"}]},"v":{"appliesTo":{"resourceTypes":["E"],"principalTypes":null,"context":{"type":"Long"}},"attributes":{"k":null}}},"commonTypes":{"T":{"type":"Extension","name":"ipaddr"}}}}
{"":{"actions":{"a":{"appliesTo":{"principalTypes":["E","N::F"],"resourceTypes":["E"]},"memberOf":[{"id":"a"}]}},"commonTypes":{"T":{"attributes":{},"type":"Record"}},"entityTypes":{}}} <- {"":{"entityTypes":{},"actions":{"a":{"appliesTo":{"resourceTypes":["E"],"principalTypes":["E","N::F"]},"memberOf":[{"id":"a"}]}},"commonTypes":{"T":{"type":"Record","attributes":{}}}}}
BadName(common type) in the word `in` is reserved <- {"":{"entityTypes":{"F":{}},"actions":{"a":{"memberOf":[{"id":"a"}]}},"commonTypes":{"T":{"type":"Set","element":{"type":"in","attributes":{"__cedar":{"type":"Entity","name":"E"}},"additionalAttributes":true}}}}}
{"":{"actions":{},"commonTypes":{"U":{"name":"decimal","type":"Extension"}},"entityTypes":{"E":{}}},"A::B":{"actions":{"v":{}},"entityTypes":{"G":{}}}} <- {"A::B":{"entityTypes":{"G":{}},"actions":{"v":{}}},"":{"entityTypes":{"E":{}},"actions":{},"commonTypes":{"U":{"type":"Extension","name":"decimal"}}}}
UnknownField(__cedar) <- {"N":{"actions":{"v":{"appliesTo":{"resourceTypes":["E"],"principalTypes":[],"context":{"type":"String"}},"memberOf":[{"id":"a"}],"attributes":{"k":null}}},"commonTypes":5,"__cedar":{}},"":{"entityTypes":{"G":{},"F":{"memberOfTypes":["N::E"]}},"actions":{},"commonTypes":{"T":{"type":"String"}}}}
WrongType(actions) <- {"A::B":{"entityTypes":{"G":{"shape":{"1":"T"}}},"actions":"1"},"element":null}
BadName(common type)  unexpected end of input <- {"A::B":{"entityTypes":{"F":{"memberOfTypes":["N::E"],"shape":{"type":""}},"E":{}},"actions":{"a":{"attributes":{"k":null}}}}}
UnknownField(type) <- {"N":{"entityTypes":{},"actions":{"a":{"attributes":{"k":null}}},"type":" A"}}
WrongType(name) <- {"N":{"entityTypes":{"F":{},"name":""},"actions":{},"commonTypes":{"U":{"type":"Boolean"}}}}
WrongType(resourceTypes) <- {"N":{"entityTypes":{},"actions":{"b c":{"appliesTo":{"resourceTypes":[5],"principalTypes":[]}}}}}
WrongType(actions) <- {"":{"entityTypes":{"G":{"memberOfTypes":["E"],"shape":{"type":"Long"}}},"actions":""},"N":{"entityTypes":{"F":{"memberOfTypes":["E"],"shape":{"type":"Set","element":{"type":[]},"zz":true}}},"actions":{"b c":{"attributes":{"k":null}}},"commonTypes":{"U":{"type":"Boolean"}}}}
MissingField(type) <- {"N":{"entityTypes":{"E":{"shape":{"in":"EntityOrCommon"}}},"actions":{}},"__cedar":{"entityTypes":{},"actions":{},"commonTypes":{"U":{"type":"Long"}}}}
MissingField(id) <- {"":{"entityTypes":{},"actions":{"b c":[],"a":{"appliesTo":{"resourceTypes":["E"],"principalTypes":[],"context":{"type":"T"}},"memberOf":[{}]}}}}
MissingField(actions) <- {"":{"entityTypes":{"G":{"memberOfTypes":["N::E"],"shape":{}}}},"A::B":{"actions":{"b c":{"attributes":{"k":null}}},"commonTypes":{"T":{"type":"T"}},"__cedar":{}}}
BadName(common type) in the word `in` is reserved <- {"N":{"entityTypes":{"G":{"shape":{"type":"in"}}},"actions":{}}}
BadName(name)  A the name is not normalized <- {"in":{"entityTypes":{"E":{"memberOfTypes":[" A"],"shape":{"type":"Record","attributes":{}}}},"actions":{"a":{"attributes":{"k":null}}}}}
BadName(common type)  unexpected end of input <- {"":{"entityTypes":{"F":{}},"actions":{}},"N":{"entityTypes":{"G":{"shape":{"type":"Long"}}},"actions":{"b c":{"appliesTo":{"resourceTypes":["E"],"principalTypes":["E","N::F"],"context":{"type":""}}},"in":{}},"commonTypes":{"U":{"type":"Set","element":{"type":"Set","element":{"type":"T"}}}}}}
"#;
