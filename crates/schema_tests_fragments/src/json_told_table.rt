// What is said and, behind `|`, advised of a text, and behind `<-` the text: a text of each cause, as a second program
// tells it, which was written from the definitions in Python. A line that ends with a backslash goes on in the next.
pub const TOLD: &str = "\
the text is not JSON|this API was expecting a schema in the JSON format; did you mean to use a different function, whi\
ch expects the Cedar schema format? <- entity A;
missing field `entityTypes`|JSON formatted schema must specify a namespace. If you want to use the empty namespace, ex\
plicitly specify it with `{ \"\": {..} }` <- {\"entityTypes\":{},\"actions\":{}}
the text is not JSON| <- {\"a\":1
invalid entry: found duplicate key| <- {\"Foo\":{\"entityTypes\":{},\"actions\":{}},\"Foo\":{\"entityTypes\":{},\"acti\
ons\":{}}}
a number is no whole number of 64 bits| <- {\"\":{\"entityTypes\":{},\"actions\":{\"a\":{\"attributes\":{\"x\":-0}}}}}
unknown field `more`| <- {\"\":{\"entityTypes\":{},\"actions\":{},\"more\":1}}
missing field `actions`| <- {\"\":{\"entityTypes\":{}}}
wrong type of value for `external`| <- {\"\":{\"entityTypes\":{},\"actions\":{\"a\":{\"external\":null}}}}
wrong type of value for ``|this API was expecting a schema in the JSON format; did you mean to use a different functio\
n, which expects the Cedar schema format? <- []
invalid namespace `A:: B`: the name is not normalized| <- {\"A:: B\":{\"entityTypes\":{},\"actions\":{}}}
invalid namespace `A::`: unexpected end of input| <- {\"A::\":{\"entityTypes\":{},\"actions\":{}}}
invalid namespace `1`: unexpected token `1`| <- {\"1\":{\"entityTypes\":{},\"actions\":{}}}
invalid namespace `~`: invalid token| <- {\"~\":{\"entityTypes\":{},\"actions\":{}}}
invalid namespace `in`: the word `in` is reserved| <- {\"in\":{\"entityTypes\":{},\"actions\":{}}}
this is reserved and cannot be the basename of a common-type declaration: Bool| <- {\"\":{\"entityTypes\":{},\"actions\
\":{},\"commonTypes\":{\"Bool\":{\"type\":\"Long\"}}}}
an enumerated entity type has no choices| <- {\"\":{\"entityTypes\":{\"A\":{\"enum\":[]}},\"actions\":{}}}
unexpected field on an external entity type: shape, tags| <- {\"\":{\"entityTypes\":{\"A\":{\"external\":true,\"tags\"\
:1,\"shape\":2}},\"actions\":{}}}
unexpected field on an external action: appliesTo| <- {\"\":{\"entityTypes\":{},\"actions\":{\"a\":{\"external\":true,\
\"appliesTo\":{\"resourceTypes\":[],\"principalTypes\":[]}}}}}
unexpected field: memberOfTypes, shape| <- {\"\":{\"entityTypes\":{\"A\":{\"enum\":[\"a\"],\"shape\":{\"type\":\"Long\
\"},\"memberOfTypes\":[]}},\"actions\":{}}}
annotations are not allowed on the empty namespace| <- {\"\":{\"entityTypes\":{},\"actions\":{},\"annotations\":{\"doc\
\":\"d\"}}}
";
