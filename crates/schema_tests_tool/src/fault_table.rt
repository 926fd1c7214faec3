// Schemas that have faults, and what a second program tells of them, which was written from the definitions in Python. What it tells of
// a text that is no schema was put behind `error parsing schema: ` by hand, and so was the advice on JSON.

/// What a fault of building says, and behind `|` the schema, as a text or in the deprecated form of JSON.
pub fn fault_lines() -> &'static str {
    "\
undeclared action: Action::\"b\"|action a in b;
definition of `N::T` illegally shadows the existing definition of `T`|type T = Long; namespace N { type T = Long; }
definition of `N::Action::\"a\"` illegally shadows the existing definition of `Action::\"a\"`|action a; namespace N { action a; }
entity type `Action` declared in `entityTypes` list|entity Action;
cycle in common type references containing `A`|type A = B; type B = A;
cycle in action hierarchy containing `Action::\"a\"`|action a in b; action b in a;
Context for action Action::\"a\" is declared with a type other than `Record`|type T = Long; entity E; action a appliesTo { principal: E, resource: E, context: T };
external entity type `A` cannot have the enum entity type `E` as an ancestor|entity E enum [\"a\"]; external entity A in E;
undeclared entity type: Action|entity A in Action; action a;
failed to resolve type: X|entity A in X;
failed to resolve type: Set|{\"\":{\"entityTypes\":{\"A\":{\"shape\":{\"type\":\"Record\",\"attributes\":{\"s\":{\"type\":\"Set\"}}}}},\"actions\":{}}}
Shape for entity type A is declared with a type other than `Record`|{\"\":{\"entityTypes\":{\"A\":{\"shape\":{\"type\":\"Long\"}}},\"actions\":{}}}
unknown extension type `e`|{\"\":{\"entityTypes\":{\"A\":{\"shape\":{\"type\":\"Record\",\"attributes\":{\"x\":{\"type\":\"Extension\",\"name\":\"e\"}}}}},\"actions\":{}}}
unsupported feature used in schema|{\"\":{\"entityTypes\":{\"A\":{\"shape\":{\"type\":\"Record\",\"attributes\":{},\"additionalAttributes\":true}}},\"actions\":{}}}
unsupported feature used in schema|{\"\":{\"entityTypes\":{},\"actions\":{\"a\":{\"attributes\":{\"x\":1}}}}}
the text is not JSON|{\"\":1
missing field `resourceTypes`|{\"\":{\"entityTypes\":{},\"actions\":{\"a\":{\"appliesTo\":{\"principalTypes\":[]}}}}}
"
}

/// What is told of a text that is no schema: the message, in brackets each place that it points to with what it says there, and the
/// advice; and behind `|` the text.
pub fn refusal_lines() -> &'static str {
    "\
error parsing schema: unexpected token `String` [21..27 expected `:` or `?`]|entity User = { name String };
error parsing schema: unexpected token `{` [0..1 expected `namespace`, `entity`, `external`, `type`, `action`, `@` or end of input] help: this API was expecting a schema in the Cedar schema format; did you mean to use a different function, which expects a JSON-format Cedar schema|{}
failed to resolve type: X [12..13]|entity A in X;
error parsing schema: `A` is declared twice [7..8] [17..18]|entity A; entity A;
undeclared action: Action::\"b\" help: any actions appearing as parents need to be declared as actions|action a in b;
error parsing schema: this uses a reserved schema keyword: `Long` [5..9] help: Keywords such as `entity`, `extension`, `set` and `record` cannot be used as common type names|type Long = Bool;
error parsing schema: An empty list was passed [14..16]|entity A enum [];
"
}
