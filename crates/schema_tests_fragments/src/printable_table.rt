// Fragments as JSON, and whether each is printable under the table of all extensions: `yes` or `no`, then behind `|` the text. A
// second program gave the answers, which was written from the definitions in Python.

/// Fragments with their answers.
pub fn printable_lines() -> &'static str {
    "\
yes|{\"\":{\"entityTypes\":{\"P\":{\"shape\":{\"type\":\"Record\",\"attributes\":{\"b\":{\"type\":\"Boolean\"}}}}},\"actions\":{\"a\":{}}}}
no|{\"\":{\"entityTypes\":{\"P\":{\"shape\":{\"type\":\"Record\",\"attributes\":{},\"additionalAttributes\":true}}},\"actions\":{}}}
no|{\"N\":{\"entityTypes\":{\"T\":{}},\"actions\":{},\"commonTypes\":{\"T\":{\"type\":\"Long\"}}}}
yes|{\"\":{\"entityTypes\":{\"T\":{}},\"actions\":{},\"commonTypes\":{\"T\":{\"type\":\"Long\"}}}}
no|{\"N\":{\"entityTypes\":{\"Bool\":{},\"A\":{\"shape\":{\"type\":\"Record\",\"attributes\":{\"x\":{\"type\":\"Bool\"}}}}},\"actions\":{}}}
no|{\"\":{\"entityTypes\":{\"P\":{}},\"actions\":{\"a\":{\"appliesTo\":{\"principalTypes\":[],\"resourceTypes\":[\"P\"]}}}}}
no|{\"\":{\"entityTypes\":{},\"actions\":{\"a\":{\"appliesTo\":{\"principalTypes\":[],\"resourceTypes\":[],\"context\":{\"type\":\"C\"}}}},\"commonTypes\":{\"C\":{\"type\":\"Record\",\"attributes\":{}}}}}
yes|{\"N\":{\"entityTypes\":{\"C\":{}},\"actions\":{\"a\":{\"appliesTo\":{\"principalTypes\":[\"C\"],\"resourceTypes\":[\"C\"],\"context\":{\"type\":\"C\"}}}},\"commonTypes\":{}},\"\":{\"entityTypes\":{},\"actions\":{},\"commonTypes\":{\"C\":{\"type\":\"Record\",\"attributes\":{}}}}}
yes|{\"\":{\"entityTypes\":{},\"actions\":{},\"commonTypes\":{}}}
yes|{\"M\":{\"entityTypes\":{},\"actions\":{\"a\":{}},\"commonTypes\":{\"B\":{\"type\":\"B\"}}}}
yes|{\"M\":{\"entityTypes\":{},\"actions\":{},\"commonTypes\":{\"ipaddr\":{\"type\":\"EntityOrCommon\",\"name\":\"Bool\"}}}}
yes|{\"N::M\":{\"entityTypes\":{\"String\":{\"shape\":{\"type\":\"Record\",\"attributes\":{}},\"tags\":{\"type\":\"N::T\"}}},\"actions\":{},\"commonTypes\":{}}}
yes|{\"\":{\"entityTypes\":{\"T\":{\"shape\":{\"type\":\"Record\",\"attributes\":{}}},\"ipaddr\":{\"external\":true,\"memberOfTypes\":[\"Action\"]},\"String\":{}},\"actions\":{},\"commonTypes\":{}}}
yes|{\"\":{\"entityTypes\":{},\"actions\":{\"b\":{\"appliesTo\":{\"principalTypes\":[],\"resourceTypes\":[]}}},\"commonTypes\":{\"Action\":{\"type\":\"Record\",\"attributes\":{\"y\":{\"type\":\"String\"},\"z\":{\"type\":\"Boolean\"}}}}}}
yes|{\"N::M\":{\"entityTypes\":{\"Action\":{\"enum\":[\"a\",\"b\"]},\"ipaddr\":{\"memberOfTypes\":[\"Bool\"]}},\"actions\":{\"b\":{\"appliesTo\":{\"principalTypes\":[\"M::Bool\"],\"resourceTypes\":[\"Long\"],\"context\":{\"type\":\"Action\"}}}},\"commonTypes\":{}}}
yes|{\"\":{\"entityTypes\":{\"String\":{\"shape\":{\"type\":\"Record\",\"attributes\":{\"y\":{\"type\":\"M::Action\"}}}},\"T\":{\"enum\":[\"a\",\"b\"]}},\"actions\":{\"a\":{\"appliesTo\":{\"principalTypes\":[\"String\"],\"resourceTypes\":[\"T\"],\"context\":{\"type\":\"M::Action\"}}}},\"commonTypes\":{}}}
yes|{\"N::M\":{\"entityTypes\":{\"ipaddr\":{},\"A\":{\"external\":true},\"String\":{\"shape\":{\"type\":\"Record\",\"attributes\":{\"y\":{\"type\":\"Entity\",\"name\":\"A\"}}},\"tags\":{\"type\":\"Entity\",\"name\":\"N::T\"}}},\"actions\":{},\"commonTypes\":{}},\"\":{\"entityTypes\":{},\"actions\":{},\"commonTypes\":{\"B\":{\"type\":\"Boolean\"}}}}
no|{\"N\":{\"entityTypes\":{},\"actions\":{},\"commonTypes\":{\"A\":{\"type\":\"Long\"},\"ipaddr\":{\"type\":\"Record\",\"attributes\":{},\"additionalAttributes\":true}}}}
no|{\"N\":{\"entityTypes\":{\"ipaddr\":{\"shape\":{\"type\":\"Record\",\"attributes\":{\"z\":{\"type\":\"Record\",\"attributes\":{\"y\":{\"type\":\"EntityOrCommon\",\"name\":\"N::Action\"}}}},\"additionalAttributes\":true},\"tags\":{\"type\":\"String\"}},\"Action\":{},\"B\":{}},\"actions\":{},\"commonTypes\":{}}}
no|{\"M\":{\"entityTypes\":{},\"actions\":{},\"commonTypes\":{\"T\":{\"type\":\"Entity\",\"name\":\"T\"}}}}
no|{\"N::M\":{\"entityTypes\":{\"String\":{\"enum\":[\"a\",\"b\"]}},\"actions\":{},\"commonTypes\":{\"C\":{\"type\":\"Entity\",\"name\":\"Bool\"}}}}
no|{\"M\":{\"entityTypes\":{},\"actions\":{},\"commonTypes\":{\"ipaddr\":{\"type\":\"Entity\",\"name\":\"B\"}}},\"\":{\"entityTypes\":{},\"actions\":{},\"commonTypes\":{\"B\":{\"type\":\"Boolean\"}}}}
no|{\"M\":{\"entityTypes\":{\"B\":{},\"Long\":{\"shape\":{\"type\":\"Record\",\"attributes\":{\"x\":{\"type\":\"M::Long\"}}}},\"T\":{\"shape\":{\"type\":\"Record\",\"attributes\":{}}}},\"actions\":{\"b\":{}},\"commonTypes\":{\"A\":{\"type\":\"Bool\"}}}}
no|{\"M\":{\"entityTypes\":{\"T\":{\"memberOfTypes\":[\"A\"]}},\"actions\":{\"b\":{\"appliesTo\":{\"principalTypes\":[\"N::T\"],\"resourceTypes\":[\"N::M::Action\"],\"context\":{\"type\":\"N::Long\"}}}},\"commonTypes\":{\"B\":{\"type\":\"Entity\",\"name\":\"ipaddr\"}}}}
no|{\"M\":{\"entityTypes\":{},\"actions\":{},\"commonTypes\":{\"T\":{\"type\":\"Entity\",\"name\":\"Bool\"},\"C\":{\"type\":\"EntityOrCommon\",\"name\":\"__cedar::A\"}}},\"N\":{\"entityTypes\":{},\"actions\":{},\"commonTypes\":{\"T\":{\"type\":\"String\"},\"ipaddr\":{\"type\":\"Bool\"}}}}
no|{\"\":{\"entityTypes\":{\"A\":{\"shape\":{\"type\":\"Record\",\"attributes\":{\"y\":{\"type\":\"Boolean\"},\"z\":{\"type\":\"Entity\",\"name\":\"Long\"}}},\"memberOfTypes\":[\"B\"]}},\"actions\":{\"a\":{}},\"commonTypes\":{\"T\":{\"type\":\"Entity\",\"name\":\"Long\"},\"ipaddr\":{\"type\":\"EntityOrCommon\",\"name\":\"T\"}}}}
no|{\"N\":{\"entityTypes\":{},\"actions\":{\"b\":{\"appliesTo\":{\"principalTypes\":[\"M::A\"],\"resourceTypes\":[\"ipaddr\"],\"context\":{\"type\":\"__cedar::Long\"}}}},\"commonTypes\":{\"ipaddr\":{\"type\":\"String\"},\"C\":{\"type\":\"Entity\",\"name\":\"Bool\"}}},\"\":{\"entityTypes\":{\"Long\":{},\"A\":{}},\"actions\":{},\"commonTypes\":{}}}
no|{\"N::M\":{\"entityTypes\":{\"Long\":{\"enum\":[\"a\",\"b\"]},\"B\":{\"shape\":{\"type\":\"Record\",\"attributes\":{\"y\":{\"type\":\"EntityOrCommon\",\"name\":\"A\"}}},\"tags\":{\"type\":\"Set\",\"element\":{\"type\":\"EntityOrCommon\",\"name\":\"M::Action\"}}}},\"actions\":{\"b\":{\"external\":true}},\"commonTypes\":{\"ipaddr\":{\"type\":\"Entity\",\"name\":\"ipaddr\"}}}}
no|{\"\":{\"entityTypes\":{\"A\":{\"shape\":{\"type\":\"N::Action\"}}},\"actions\":{},\"commonTypes\":{\"A\":{\"type\":\"Boolean\"}}}}
no|{\"N\":{\"entityTypes\":{\"ipaddr\":{\"shape\":{\"type\":\"Record\",\"attributes\":{}}},\"Long\":{\"enum\":[\"a\",\"b\"]}},\"actions\":{\"a\":{\"appliesTo\":{\"principalTypes\":[\"M::B\"],\"resourceTypes\":[\"N::T\"],\"context\":{\"type\":\"String\"}}}},\"commonTypes\":{}}}
no|{\"N\":{\"entityTypes\":{},\"actions\":{\"a\":{\"appliesTo\":{\"principalTypes\":[\"A\"],\"resourceTypes\":[]}}},\"commonTypes\":{}}}
no|{\"M\":{\"entityTypes\":{\"Long\":{\"enum\":[\"a\",\"b\"]},\"B\":{},\"String\":{}},\"actions\":{\"b\":{\"appliesTo\":{\"principalTypes\":[\"Bool\"],\"resourceTypes\":[]}}},\"commonTypes\":{\"ipaddr\":{\"type\":\"String\"},\"T\":{\"type\":\"Boolean\"}}}}
no|{\"N::M\":{\"entityTypes\":{},\"actions\":{\"b\":{\"attributes\":{}}},\"commonTypes\":{}}}
no|{\"N\":{\"entityTypes\":{\"Action\":{}},\"actions\":{\"b\":{\"appliesTo\":{\"principalTypes\":[\"Action\"],\"resourceTypes\":[\"N::M::T\"],\"context\":{\"type\":\"__cedar::Bool\"}},\"attributes\":{}}},\"commonTypes\":{\"A\":{\"type\":\"A\"}}}}
no|{\"M\":{\"entityTypes\":{\"ipaddr\":{},\"Action\":{\"enum\":[\"a\",\"b\"]}},\"actions\":{},\"commonTypes\":{\"ipaddr\":{\"type\":\"__cedar::ipaddr\"}}}}
no|{\"N\":{\"entityTypes\":{\"T\":{\"shape\":{\"type\":\"Record\",\"attributes\":{}}},\"Action\":{\"tags\":{\"type\":\"Entity\",\"name\":\"N::M::String\"}}},\"actions\":{\"a\":{\"external\":true}},\"commonTypes\":{\"Action\":{\"type\":\"EntityOrCommon\",\"name\":\"N::T\"}}}}
no|{\"M\":{\"entityTypes\":{\"String\":{}},\"actions\":{},\"commonTypes\":{\"T\":{\"type\":\"Extension\",\"name\":\"foo\"}}}}
no|{\"\":{\"entityTypes\":{\"Long\":{\"shape\":{\"type\":\"Record\",\"attributes\":{\"z\":{\"type\":\"EntityOrCommon\",\"name\":\"B\"},\"y\":{\"type\":\"Extension\",\"name\":\"foo\"}}}}},\"actions\":{\"b\":{}},\"commonTypes\":{\"Action\":{\"type\":\"Boolean\"},\"ipaddr\":{\"type\":\"EntityOrCommon\",\"name\":\"N::B\"}}}}
"
}
