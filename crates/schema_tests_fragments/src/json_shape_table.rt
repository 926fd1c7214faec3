// An answer, and behind `<-` a text that has it: `ok`, or the fault of the text, and its advice. Answers that name a text that is no
// name have the role, the text and why. The first are worked by hand; the others were made by another reader of JSON schemas from
// random fragments with up to three random changes each.
pub const TEXTS: &str = r#"EmptyEnum <- {"":{"entityTypes":{"A":{"enum":[]}},"actions":{}}}
ExternalConflict(enum) <- {"":{"entityTypes":{"A":{"external":true,"enum":["a"]}},"actions":{}}}
MissingField(entityTypes); MissingNamespace <- {"entityTypes":{},"actions":{}}
UnknownField(zz) <- {"":{"entityTypes":{"A":{"enum":[]}},"zz":1}}
Float <- {"":{"entityTypes":{},"actions":{"a":{"attributes":{"x":1.5}}}}}
NotJson; CedarFormat <- entity A;
UnknownField(shape44) <- {"N":{"entityTypes":{"U":{"shape44":{}}},"actions":{}}}
MissingField(type) <- {"":{"entityTypes":{"U":{"shape":{}}},"actions":{}}}
AnnotationsOnEmptyNamespace <- {"":{"entityTypes":{},"actions":{},"annotations":{"doc":"d"}}}
WrongType(appliesTo) <- {"":{"entityTypes":{},"actions":{"a":{"appliesTo":[["A"],["A"]]}}}}
BadName(extension type) __cedar::decimal unexpected token `::` <- {"":{"entityTypes":{"U":{"tags":{"type":"Extension","name":"__cedar::decimal"}}},"actions":{}}}
WrongType(annotations) <- {"":{"entityTypes":{},"actions":{},"commonTypes":{"T":{"annotations":1,"type":"*"}}}}
EnumConflict(tags) <- {"":{"entityTypes":{"A":{"enum":1,"tags":1}},"actions":{}}}
ok <- {"":{"entityTypes":{},"actions":{"a":{"external":true,"appliesTo":null}}}}
ExternalConflict(tags) <- {"":{"entityTypes":{"A":{"external":true,"tags":null}},"actions":{}}}
EnumConflict(tags) <- {"":{"entityTypes":{"A":{"enum":["a"],"external":1,"tags":1}},"actions":{}}}
ExternalConflict(enum) <- {"":{"entityTypes":{"A":{"external":true,"enum":[]}},"actions":{}}}
WrongType(id) <- {"":{"entityTypes":{},"actions":{"a":{"memberOf":[{"id":1,"type":2}]}}}}
WrongType() <- {"":5}
WrongType(); CedarFormat <- []
WrongType(); CedarFormat <- 1
ok <- {}
WrongType(memberOf) <- {"":{"entityTypes":{},"actions":{"a":{"memberOf":["x"]}}}}
UnknownField(required) <- {"":{"entityTypes":{},"actions":{},"commonTypes":{"T":{"type":"String","required":true}}}}
UnknownField(required) <- {"":{"entityTypes":{"A":{"shape":{"type":"Record","attributes":{"s":{"type":"Set","element":{"type":"Long","required":true}}}}}},"actions":{}}}
UnknownField(name) <- {"":{"entityTypes":{"A":{"tags":{"type":"T","name":"x"}}},"actions":{}}}
Float <- {"":{"entityTypes":{},"actions":{"a":{"attributes":{"x":-0}}}}}
Float <- {"":{"entityTypes":{},"actions":{"a":{"attributes":{"x":18446744073709551616}}}}}
ok <- {"":{"entityTypes":{},"actions":{"a":{"attributes":{"x":18446744073709551615}}}}}
RepeatedKey(actions); MissingNamespace <- {"actions":{},"actions":{}}
NotJson <-  {"":{"entityTypes":{},"actions":{}}}
NotJson; CedarFormat <- //x
RepeatedKey(b) <- {"a":{"b":1,"b":2},"a":1}
RepeatedKey(Foo) <- {"Foo":{"entityTypes":{},"actions":{}},"Foo":{"entityTypes":{},"actions":{}}}
WrongType(external) <- {"":{"entityTypes":{},"actions":{"a":{"external":null}}}}
ok <- {"":{"entityTypes":{},"actions":{},"annotations":{}}}
ReservedCommonType(Bool) <- {"":{"entityTypes":{"Bool":{}},"actions":{},"commonTypes":{"Bool":{"type":"Long"}}}}
BadName(namespace) 1 unexpected token `1` <- {"1":{"entityTypes":{},"actions":{}}}
BadName(namespace) in the word `in` is reserved <- {"in":{"entityTypes":{},"actions":{}}}
BadName(namespace) A:: B the name is not normalized <- {"A:: B":{"entityTypes":{},"actions":{}}}
BadName(namespace) __cedar the word `__cedar` is reserved <- {"__cedar":{"entityTypes":{},"actions":{}}}
BadName(namespace) A:: unexpected end of input <- {"A::":{"entityTypes":{},"actions":{}}}
ok <- {}
WrongType(A::B) <- {"A::B":true}
WrongType(type) <- {"":{"entityTypes":{},"actions":{"type":["a"]},"commonTypes":{"T1":{"type":"Extension","name":"ipaddr"}}}}
WrongType(entityTypes) <- {"N":{"entityTypes":{},"actions":{"entityTypes":true},"commonTypes":{}}}
WrongType(N) <- {"N":0}
WrongType(memberOfTypes) <- {"":{"entityTypes":{"A":{"memberOfTypes":"A"}},"actions":{"z":{"appliesTo":{"resourceTypes":["B","User"],"principalTypes":[]},"memberOf":[]}}}}
WrongType(); CedarFormat <- true
MissingField(entityTypes); MissingNamespace <- {"commonTypes":{}}
UnknownField(shape) <- {"":{"entityTypes":{"C":{}},"actions":{"é x":{}},"shape":"in"}}
WrongType(type) <- {"":{"entityTypes":{"A":{"shape":{"type":true,"name":"decimal"}},"B":{"external":false}},"actions":{},"commonTypes":{}}}
ok <- {"":{"entityTypes":{},"actions":{}}}
WrongType(B) <- {"":{"entityTypes":{"B":[]},"actions":{}}}
MissingField(actions) <- {"N":{"entityTypes":{},"commonTypes":{"T1":{"type":"EntityOrCommon","name":"N::C","annotations":{"id":"x"}}}}}
UnknownField(attributes) <- {"":{"entityTypes":{},"actions":{},"commonTypes":{},"attributes":{"type":"String"}}}
ok <- {"":{"entityTypes":{"appliesTo":{"shape":{"type":"Long"}}},"actions":{},"commonTypes":{}}}
WrongType(memberOfTypes) <- {"":{"entityTypes":{"User":{"enum":["a","a"]},"C":{"memberOfTypes":[true,"x"]}},"actions":{}}}
UnknownField(name) <- {"A::B":{"entityTypes":{"B":{"enum":["b"]},"A":{"name":{}}},"actions":{},"commonTypes":{},"annotations":{"id":"é"}}}
WrongType(); CedarFormat <- "in"
ok <- {"N":{"entityTypes":{"User":{"enum":["String","b"]},"T1":{}},"actions":{}}}
WrongType(attributes) <- {"":{"entityTypes":{"User":{"shape":{"type":"Entity","name":[1]}}},"actions":{},"commonTypes":{"Foo":{"type":"Record","attributes":"*"}}}}
UnknownField(type) <- {"N":{"actions":{"z":{}},"annotations":{"id":null,"in":false},"type":{"T1":{"external":["a"],"memberOfTypes":["A"],"annotations":{"in":null}}}}}
WrongType(Foo) <- {"A0":{"entityTypes":{},"actions":{},"commonTypes":{"Foo":"*","T1":{"type":{"a":1},"annotations":{"doc":"x","element":"x"}}}}}
WrongType(a) <- {"A0":{"entityTypes":{"T1":{},"User":{"shape":{"type":"Record","attributes":{"a":{"type":"Extension","name":"ipaddr"}}}}},"actions":{"a":1}}}
WrongType(A::B) <- {"A::B":"String"}
UnknownField(required) <- {"A::B":{"entityTypes":{"C":{"memberOfTypes":[]}},"actions":{"":"Record"},"required":"Record"}}
ok <- {"A::B":{"entityTypes":{"T1":{"memberOfTypes":[],"external":false},"User":{"external":false},"B":{"enum":["in"]}},"actions":{},"commonTypes":{}}}
BadName(name) 1 unexpected token `1` <- {"A::B":{"entityTypes":{},"actions":{"view":{},"":{"appliesTo":{"resourceTypes":["1"],"principalTypes":[]}}}}}
WrongType(1) <- {"":{"entityTypes":{"enum":false},"actions":{"":{"appliesTo":{"resourceTypes":["__cedar::String","Long"],"principalTypes":[]}},"1":"Record"}}}
UnknownField(Bool) <- {"A0":{"entityTypes":{},"actions":{"":{}},"Bool":null}}
ok <- {"A0":{"entityTypes":{},"actions":{"":{"appliesTo":{"resourceTypes":[],"principalTypes":["B"]}}}}}
UnknownField(type) <- {"":{"type":"String"}}
WrongType() <- {"":0,"A::B":{"entityTypes":{},"actions":{"":{"memberOf":[]}},"commonTypes":{"T1":{"type":"Long","annotations":{"id":null}}}}}
UnknownField(entityTypes) <- {"":{"entityTypes":{},"actions":{},"commonTypes":{}},"memberOfTypes":{"entityTypes":{"T1":{"external":false,"entityTypes":[1]}},"actions":{}}}
ok <- {"A0":{"entityTypes":{},"actions":{"z":{"attributes":{},"appliesTo":{"resourceTypes":["N::C","__cedar::String"],"principalTypes":["N::C"]}}}}}
WrongType(memberOfTypes) <- {"memberOfTypes":"A"}
UnknownField(Bool) <- {"A0":{"entityTypes":{"B":{"shape":{"type":"Record","attributes":{}}}},"actions":{"":{"annotations":[1],"Bool":{"type":"String"}}},"commonTypes":{}}}
WrongType(memberOfTypes) <- {"":{"entityTypes":{},"actions":{"memberOfTypes":"String"}}}
WrongType(additionalAttributes) <- {"N":{"entityTypes":{"id":"in","additionalAttributes":-3},"actions":{"z":{},"view":{}},"commonTypes":{"T2":{"type":"EntityOrCommon","name":"User"}}}}
WrongType(enum) <- {"N":{"entityTypes":{"User":{"enum":["b",[1],"a"]},"A":{"tags":{"type":"Entity","name":"B"}},"B":{"enum":["a","a"]}},"actions":{}}}
ok <- {"A0":{"entityTypes":{"A":{"enum":["b"]},"C":{"enum":["b"]}},"actions":{"z":{"annotations":{"id":"x","shape":null}}}}}
WrongType(T1) <- {"A0":{"entityTypes":{"T1":true},"actions":{},"commonTypes":{"T2":{"type":"Long"}}}}
WrongType(N) <- {"N":null}
ok <- {"A::B":{"entityTypes":{},"actions":{}}}
ok <- {"attributes":{"entityTypes":{},"actions":{},"commonTypes":{}}}
UnknownField(in) <- {"A::B":{"entityTypes":{"annotations":""},"actions":{},"in":{}},"N":{"actions":{"é x":{}},"commonTypes":{},"attributes":{}}}
ok <- {"A0":{"entityTypes":{"C":{"shape":{"type":"Set","element":{"type":"N::T"}}},"User":{}},"actions":{}}}
MissingField(entityTypes) <- {"":{"actions":{}}}
ok <- {"":{"entityTypes":{},"actions":{"":{"memberOf":[]}}}}
ok <- {"N":{"entityTypes":{},"actions":{"":{},"\u00e9 x":{"external":false,"annotations":{"in":"\u00e9","required":null}}}}}
UnknownField(in) <- {"N":{"in":"String"}}
ok <- {"A0":{"entityTypes":{},"actions":{},"commonTypes":{"T1":{"type":"Long"},"annotations":{"type":"Boolean"}}}}
ok <- {"N":{"entityTypes":{},"actions":{"z":{"attributes":{"type":1}}}}}
ok <- {"N":{"entityTypes":{"B":{"memberOfTypes":["User"]}},"actions":{"\u00e9 x":{"attributes":null,"annotations":{"doc":"\u00e9"}}}}}
ok <- {"A::B":{"entityTypes":{"User":{"annotations":{"id":"é","doc":"x"}}},"actions":{"":{"memberOf":[]}}}}
ok <- {"N":{"entityTypes":{"User":{"enum":["a","b"]}},"actions":{"view":{"appliesTo":null,"external":true}},"commonTypes":{},"annotations":{}}}
UnknownField(type) <- {"A0":{"entityTypes":{"B":{"memberOfTypes":["Set"]}},"actions":{"":{"appliesTo":{"type":"String"},"memberOf":[{"id":"y é"}]}}}}
UnknownField(resourceTypes) <- {"":{"entityTypes":{},"actions":{},"resourceTypes":true}}
BadName(name) A B unexpected token `B` <- {"A::B":{"entityTypes":{"A":{}},"actions":{"external":{"appliesTo":{"resourceTypes":["Set","A B"],"principalTypes":[]}}},"commonTypes":"Set"}}
MissingField(type) <- {"":{"entityTypes":{"B":{"memberOfTypes":["User"]},"A":{"shape":{"attributes":{},"additionalAttributes":"Record"}}},"actions":{},"commonTypes":{}}}
UnknownField(type) <- {"N":{"actions":{"view":{"appliesTo":{"resourceTypes":[],"principalTypes":["Long"]}}},"type":{}}}
UnknownField(context) <- {"N":{"entityTypes":{},"actions":{},"context":{"T1":{"type":"Entity","name":[]}}}}
MissingField(entityTypes) <- {"N":{"actions":{"":{"annotations":{"id":"x"}}},"commonTypes":{}}}
UnknownField(attributes) <- {"":{"entityTypes":{"User":{"shape":{"type":"Set","attributes":{"a":{"type":"Boolean","required":false}}}}},"actions":{}}}
UnknownField(context) <- {"A0":{"entityTypes":{"T1":{},"A":{"shape":{"type":"Set","element":{"type":"Boolean"}}}},"actions":{"a":1},"commonTypes":{},"context":{}}}
UnknownField(resourceTypes) <- {"A0":{"entityTypes":{"B":{}},"actions":{"view":{"appliesTo":{"principalTypes":["x"]},"resourceTypes":true}}}}
MissingField(entityTypes) <- {"N":{}}
MissingField(entityTypes) <- {"N":{"actions":{},"commonTypes":{"T1":{"type":"Long"}}}}
BadName(name) A//x the name is not normalized <- {"A::B":{"entityTypes":{},"actions":{"":{"appliesTo":{"resourceTypes":["A//x"],"principalTypes":["Long","B"]}}}}}
MissingField(actions) <- {"":{"entityTypes":{"User":{"enum":["Record","a","b"]}}}}
EnumConflict(memberOfTypes) <- {"N":{"entityTypes":{"User":{"enum":["a","b"]},"A":{"enum":["a","a"],"memberOfTypes":[]}},"actions":{"z":{}},"commonTypes":{}}}
MissingField(type) <- {"":{"entityTypes":{"B":{},"User":{"shape":{"attributes":{},"additionalAttributes":true,"name":"Record"},"annotations":{}}},"actions":{}}}
EmptyEnum <- {"A0":{"entityTypes":{"C":{},"T1":{"enum":[],"annotations":"A"}},"actions":{}}}
MissingField(actions) <- {"":{"entityTypes":{"User":{"enum":["a","b"],"annotations":{"doc":"é","id":"x"}},"T1":{}}}}
MissingField(actions) <- {"A0":{"entityTypes":{"B":{},"C":{"memberOfTypes":[]}}}}
MissingField(entityTypes) <- {"":{"actions":"*"}}
MissingField(name) <- {"A0":{"entityTypes":{},"actions":{"view":{"appliesTo":{"resourceTypes":[],"principalTypes":["A"],"context":{"type":"EntityOrCommon"}}}}}}
MissingField(actions) <- {"":{"entityTypes":{"A":{"memberOfTypes":true,"shape":{"type":"Record","attributes":{"context":{"type":"Boolean","required":true}}}}}}}
ReservedCommonType(Bool) <- {"A::B":{"entityTypes":{},"actions":{},"commonTypes":{"Foo":{"type":"String"},"Bool":{"type":"Entity","name":"Set"}}}}
BadName(namespace) 1 unexpected token `1` <- {"1":{"entityTypes":{"B":{"memberOfTypes":[]}},"actions":{"z":{}}}}
BadName(name) * unexpected token `*` <- {"N":{"entityTypes":{"A":{"enum":["a"]}},"actions":{}},"A::B":{"entityTypes":{"A":{"memberOfTypes":["*"]}},"actions":{},"annotations":{"id":"x"}}}
ReservedCommonType(Set) <- {"A::B":{"entityTypes":{},"actions":{"view":{},"\u00e9 x":{"annotations":{}}},"commonTypes":{"Foo":{"type":"Entity","name":"User"},"Set":-3}}}
BadName(name)  unexpected end of input <- {"N":{"entityTypes":{"C":{"enum":["b","b"]}},"actions":{"z":{"appliesTo":{"resourceTypes":[],"principalTypes":["","Set"]}}}}}
BadName(id) 1 unexpected token `1` <- {"A::B":{"entityTypes":{"1":0},"actions":{}}}
BadName(common type) in the word `in` is reserved <- {"A::B":{"entityTypes":"in","actions":{"view":{"appliesTo":{"resourceTypes":["A"],"principalTypes":["A","B"]}}},"commonTypes":{"Foo":{"type":"in"}}}}
BadName(name) A B unexpected token `B` <- {"A::B":{"entityTypes":{},"actions":{"\u00e9 x":{"appliesTo":{"resourceTypes":["__cedar","A B"],"principalTypes":["User"]}}},"annotations":{}}}
EmptyEnum <- {"":{"entityTypes":{"C":{"enum":[]},"B":{}},"actions":{}}}
BadName(id) 1 unexpected token `1` <- {"A::B":{"entityTypes":{"external":{"enum":["b"]},"1":[]},"actions":{}}}
BadName(id) 1 unexpected token `1` <- {"N":{"entityTypes":{},"actions":{},"commonTypes":{"Foo":{"type":"Boolean","annotations":{"id":null,"in":null}},"1":[]}}}
EnumConflict(shape) <- {"A0":{"entityTypes":{},"actions":{},"annotations":{}},"":{"entityTypes":{"T1":{"memberOfTypes":["B"]},"A":{"enum":["a"],"shape":""}},"actions":{}}}
BadName(name)  unexpected end of input <- {"A0":{"entityTypes":{"User":{"memberOfTypes":["","N::C"],"annotations":{}}},"actions":{}}}
EmptyEnum <- {"A::B":{"entityTypes":{"T1":{"enum":[]}},"actions":{}}}
BadName(name) 1 unexpected token `1` <- {"":{"entityTypes":{"B":{"memberOfTypes":["1"]}},"actions":{}}}
ExternalConflict(attributes) <- {"A::B":{"entityTypes":{},"actions":{"z":{"annotations":{"in":false}},"":{"attributes":{"x":1},"external":true},"view":{"annotations":{}}}}}
ReservedCommonType(Bool) <- {"N":{"entityTypes":[],"actions":{},"commonTypes":{"T2":null,"Bool":false}}}
BadName(name) A:: unexpected end of input <- {"":{"entityTypes":{},"actions":{"":{"appliesTo":{"resourceTypes":["x","A"],"principalTypes":["Set","A::"]}},"memberOfTypes":{}}}}
BadName(namespace) 1 unexpected token `1` <- {"1":{"entityTypes":{},"actions":{"z":{"memberOf":[{"id":"y é","type":"Action"},{"id":"x"}]}}}}
BadName(annotation) 1 unexpected token `1` <- {"N":{"entityTypes":{"C":{"memberOfTypes":[],"annotations":{"1":null}}},"actions":{"view":{"annotations":{}}},"annotations":{"id":"\u00e9"}}}
BadName(namespace) 1 unexpected token `1` <- {"1":{"actions":{"view":{}}}}
BadName(name)  unexpected end of input <- {"A::B":{"entityTypes":{},"actions":{"view":{"memberOf":[]},"z":{"appliesTo":{"resourceTypes":-3,"principalTypes":["B",""]}}}}}
ExternalConflict(attributes) <- {"A::B":{"entityTypes":{},"actions":{"view":{"attributes":{"x":true},"memberOf":[],"external":true}},"commonTypes":{},"annotations":{}}}
"#;
