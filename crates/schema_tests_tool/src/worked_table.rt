// The worked rows of the program, as a second program, which was written from the definitions in Python, answers them. ␤ stands for
// a line feed.

/// A schema with a declaration of each kind, in two namespaces.
pub fn photo_text() -> &'static str {
    "@doc(\"photo sharing\")
namespace Photo {
  type Place = { city: String, \"zip code\"?: String, };
  entity Group;
  entity User in [Group, Org::Team] = {
    home: Place,
    address: ipaddr,
  } tags Set<String>;
  entity Status enum [\"open\", \"closed\"];
  entity Album in Album { owner: User, status: Status };
  action read, \"write it\" in [any] appliesTo {
    principal: [User],
    resource: Album,
    context: { ip: ipaddr, at?: datetime, },
  };
  action any;
}
// another team's declarations
namespace Org {
  external entity Team in Company;
  entity Company;
  external action audit;
}
"
}

/// Runs: the words, the exit code, the output, the error output and the input, with `|` between.
pub fn worked_lines() -> &'static str {
    "\
recover|0|||
recover|0|entity A in [A];␤||entity A in A;
recover|0|namespace N {␤  entity A in [N::B] = {␤    x: N::B,␤  };␤␤  entity B;␤}␤||namespace N { entity B; entity A in B { x: B }; }
recover|0|namespace N {␤  entity A = {␤    x: __cedar::Long,␤  };␤}␤||type T = Long; namespace N { entity A { x: T }; }
recover|0|namespace N {␤  entity A = {␤    x: {    },␤  };␤}␤||namespace N { entity A { x: {} }; }
recover|0|namespace N {␤  entity A tags {␤  k: __cedar::Long,␤};␤}␤||namespace N { entity A tags { k: Long }; }
recover|0|entity B = {␤  Set?: Set,␤  s: Set<Set>,␤};␤␤entity Set;␤||entity Set; entity B { s: Set<Set>, Set?: Set };
recover|0|entity A = {␤  x: __cedar::Long,␤};␤||entity A { x: Nope, x: Long };
recover|0|entity E enum [\"a\\'\\u{7f}\", \"a\"];␤||entity E enum [\"a'\\x7f\", \"a\"];
recover|0|entity U;␤␤action \"v\" in [Action::\"w\"] appliesTo {␤  principal: [U],␤  resource: [U],␤  context: {},␤};␤␤action \"w\";␤||entity U; action v in \"w\" appliesTo { principal: U, resource: [U, U] }; action w;
recover|0|entity A = {␤  x: String,␤  y: __cedar::String,␤};␤␤entity String;␤|warning: The name `String` shadows a builtin Cedar name. You'll have to refer to the builtin as `__cedar::String`.␤|entity String; entity A { x: String, y: __cedar::String };
recover|1||error: the type `Action` of the empty namespace is used in namespace `N` by entity type `A`, where it would be read as `N::Action`␤|action z; type T = Action; namespace N { action y; entity A { x: T }; }
recover|1||error: `A` is declared twice␤  at 7..8␤  at 10..11␤|entity A, A;
recover|1||error: unexpected end of input␤  at 8..8: expected `in`, `tags`, `enum`, `,`, `;`, `{` or `=`␤|entity A
recover|1||error: `if` is a reserved identifier␤  at 12..14␤|entity A in if;
recover|1||error: An empty list was passed␤  at 14..16␤|entity A enum [];
recover|1||error: Invalid escape codes␤  at 15..19␤|entity A enum [\"\\q\"];
recover|1||error: duplicate annotations: `a`␤  at 1..2␤  at 4..5␤|@a @a entity A;
recover|1||error: cycle in action hierarchy containing `Action::\"a\"`␤  at 0..14␤|action a in b; action b in a;
|2||usage: cedar_schema_tool COMMAND [NAME..]␤|entity A in A;
recover|0|namespace Org {␤  entity Company;␤␤  external entity Team in [Org::Company];␤␤  external action \"audit\";␤}␤␤namespace Photo {␤  entity Album in [Photo::Album] = {␤    owner: Photo::User,␤    status: Photo::Status,␤  };␤␤  entity Group;␤␤  entity Status enum [\"open\", \"closed\"];␤␤  entity User in [Org::Company, Org::Team, Photo::Group] = {␤    address: __cedar::ipaddr,␤    home: {␤      city: __cedar::String,␤      \"zip code\"?: __cedar::String,␤    },␤  } tags Set<__cedar::String>;␤␤  action \"any\";␤␤  action \"read\" in [Photo::Action::\"any\"] appliesTo {␤    principal: [Photo::User],␤    resource: [Photo::Album],␤    context: {␤      at?: __cedar::datetime,␤      ip: __cedar::ipaddr,␤    },␤  };␤␤  action \"write it\" in [Photo::Action::\"any\"] appliesTo {␤    principal: [Photo::User],␤    resource: [Photo::Album],␤    context: {␤      at?: __cedar::datetime,␤      ip: __cedar::ipaddr,␤    },␤  };␤}␤||@doc(\"photo sharing\")␤namespace Photo {␤  type Place = { city: String, \"zip code\"?: String, };␤  entity Group;␤  entity User in [Group, Org::Team] = {␤    home: Place,␤    address: ipaddr,␤  } tags Set<String>;␤  entity Status enum [\"open\", \"closed\"];␤  entity Album in Album { owner: User, status: Status };␤  action read, \"write it\" in [any] appliesTo {␤    principal: [User],␤    resource: Album,␤    context: { ip: ipaddr, at?: datetime, },␤  };␤  action any;␤}␤// another team's declarations␤namespace Org {␤  external entity Team in Company;␤  entity Company;␤  external action audit;␤}␤
recover|0|namespace Org {␤  entity Company;␤␤  external entity Team in [Org::Company];␤␤  external action \"audit\";␤}␤␤namespace Photo {␤  entity Album in [Photo::Album] = {␤    owner: Photo::User,␤    status: Photo::Status,␤  };␤␤  entity Group;␤␤  entity Status enum [\"open\", \"closed\"];␤␤  entity User in [Org::Company, Org::Team, Photo::Group] = {␤    address: __cedar::ipaddr,␤    home: {␤      city: __cedar::String,␤      \"zip code\"?: __cedar::String,␤    },␤  } tags Set<__cedar::String>;␤␤  action \"any\";␤␤  action \"read\" in [Photo::Action::\"any\"] appliesTo {␤    principal: [Photo::User],␤    resource: [Photo::Album],␤    context: {␤      at?: __cedar::datetime,␤      ip: __cedar::ipaddr,␤    },␤  };␤␤  action \"write it\" in [Photo::Action::\"any\"] appliesTo {␤    principal: [Photo::User],␤    resource: [Photo::Album],␤    context: {␤      at?: __cedar::datetime,␤      ip: __cedar::ipaddr,␤    },␤  };␤}␤||namespace Org {␤  entity Company;␤␤  external entity Team in [Org::Company];␤␤  external action \"audit\";␤}␤␤namespace Photo {␤  entity Album in [Photo::Album] = {␤    owner: Photo::User,␤    status: Photo::Status,␤  };␤␤  entity Group;␤␤  entity Status enum [\"open\", \"closed\"];␤␤  entity User in [Org::Company, Org::Team, Photo::Group] = {␤    address: __cedar::ipaddr,␤    home: {␤      city: __cedar::String,␤      \"zip code\"?: __cedar::String,␤    },␤  } tags Set<__cedar::String>;␤␤  action \"any\";␤␤  action \"read\" in [Photo::Action::\"any\"] appliesTo {␤    principal: [Photo::User],␤    resource: [Photo::Album],␤    context: {␤      at?: __cedar::datetime,␤      ip: __cedar::ipaddr,␤    },␤  };␤␤  action \"write it\" in [Photo::Action::\"any\"] appliesTo {␤    principal: [Photo::User],␤    resource: [Photo::Album],␤    context: {␤      at?: __cedar::datetime,␤      ip: __cedar::ipaddr,␤    },␤  };␤}␤
recover-with|1||error: failed to resolve type: decimal␤  at 14..21␤|entity A { x: decimal };
recover-with decimal|0|entity A = {␤  x: __cedar::decimal,␤};␤||entity A { x: decimal };
recover-with a a|2||usage: cedar_schema_tool COMMAND [NAME..]␤|entity A { x: decimal };
recover|1||error: missing `resource` declaration for `a`␤  at 17..18␤  help: Every action must define both `principal` and `resource` targets, and the `principal` and `resource` lists must not be `[]`.␤|entity A; action a appliesTo { principal: A };
recover|0|||namespace N {} namespace N {}
recover|1||error: this uses a reserved schema keyword: `Long`␤  at 5..9␤  help: Keywords such as `entity`, `extension`, `set` and `record` cannot be used as common type names␤|type Long = Bool;
recover|1||error: use of the reserved `__cedar` namespace␤  at 7..14␤  help: Names containing `__cedar` (for example: `__cedar::A`, `A::__cedar`, or `A::__cedar::B`) are reserved␤|entity __cedar;
recover|1||error: definition of `N::A` illegally shadows the existing definition of `A`␤  at 24..33␤  help: try renaming one of the definitions, or moving `A` to a different namespace␤|entity A; namespace N { entity A; }
recover|1||error: cycle in common type references containing `T`␤  at 0..16␤|type T = Set<T>;
recover|1||error: undeclared entity type: Action␤  at 12..18␤  help: any entity types appearing anywhere in a schema need to be declared in `entityTypes`␤|entity A in Action; action a;
recover|1||error: entity type `Action` declared in `entityTypes` list␤  at 0..14␤|entity Action;
recover|1||error: external entity type `X` cannot have the enum entity type `E` as an ancestor␤  at 21..44␤  help: external entity types cannot have any enum entity type as an ancestor␤|entity E enum [\"a\"]; external entity X in E;
recover|1||error: invalid token␤  at 9..9␤|entity A ~
recover|1||error: unexpected token `\"x\"`␤  at 7..10: expected identifier␤|entity \"x\";
check|0|6 entity types, 4 actions␤||@doc(\"photo sharing\")␤namespace Photo {␤  type Place = { city: String, \"zip code\"?: String, };␤  entity Group;␤  entity User in [Group, Org::Team] = {␤    home: Place,␤    address: ipaddr,␤  } tags Set<String>;␤  entity Status enum [\"open\", \"closed\"];␤  entity Album in Album { owner: User, status: Status };␤  action read, \"write it\" in [any] appliesTo {␤    principal: [User],␤    resource: Album,␤    context: { ip: ipaddr, at?: datetime, },␤  };␤  action any;␤}␤// another team's declarations␤namespace Org {␤  external entity Team in Company;␤  entity Company;␤  external action audit;␤}␤
"
}
