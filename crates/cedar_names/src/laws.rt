//! A law of the canonical text. It is what its function ensures; the function does nothing.
ghost use Rattle.std.specs.Prelude.{◌≡◌};
ghost use Rattle.cedar_names.specs.CanonicalText.{canonical_text, first_layout};
ghost use Rattle.cedar_names.specs.CanonicalRows.{nested_records, nested_records_text, record_tags, record_tags_text};
ghost use Rattle.cedar_names.specs.CanonicalRows.{actions_last, actions_last_text, actions_last_first_layout};
ghost use Rattle.cedar_names.specs.CanonicalRows.{external_with_more, external_with_more_text, enum_with_more};
ghost use Rattle.cedar_names.specs.CanonicalRows.{enum_with_more_text, three_namespaces, three_namespaces_text};

/// Schemas whose canonical texts are written out, and one that is written out in the first layout too.
pub fn written_out()
    ensures nested_records { canonical_text nested_records ≡ nested_records_text }
    ensures record_tags { canonical_text record_tags ≡ record_tags_text }
    ensures actions_last { canonical_text actions_last ≡ actions_last_text }
    ensures first_layout { first_layout actions_last ≡ actions_last_first_layout }
    ensures external_with_more { canonical_text external_with_more ≡ external_with_more_text }
    ensures enum_with_more { canonical_text enum_with_more ≡ enum_with_more_text }
    ensures three_namespaces { canonical_text three_namespaces ≡ three_namespaces_text }
{}
