//! Worked examples of the definitions, as theorems.
#![tactic(auto, unfolding(crate::proofs::CutComputing::on_examples))]

ghost use Rattle.std.specs.Prelude.{◌≡◌, codes, [], ◌∷◌, Some, None, true, false};
ghost use Rattle.std.specs.List.{list_any};
ghost use Rattle.mg_bytes.specs.Bytes.{left_parenthesis, right_parenthesis};
ghost use Rattle.packages.specs.Cuts.{in_parentheses, items, entries, form_of};
ghost use Rattle.packages.specs.Spelling.{is_word, is_name, are_parameters, with_parameters};

/// Each sentence at an example.
pub fn each_sentence_has_an_example()
    // The names of bytes stand for what is written.
    ensures bytes { codes "()" ≡ left_parenthesis ∷ right_parenthesis ∷ [] }
    ensures round { in_parentheses (codes "a") ≡ codes "(a)" }
    // Commas part items only outside of all parentheses, and blanks round an item are dropped.
    ensures commas_part_items_three { items (codes "a, b(c,d)\t,(e,(f,g),h)") ≡ codes "a" ∷ codes "b(c,d)" ∷ codes "(e,(f,g),h)" ∷ [] }
    ensures commas_part_items_empty { items (codes ",") ≡ [] ∷ [] ∷ [] }
    // A parenthesis that nothing opened closes nothing, and one that nothing closes keeps all the rest.
    ensures commas_part_items_closed { items (codes "a),b") ≡ codes "a)" ∷ codes "b" ∷ [] }
    ensures commas_part_items_open { items (codes "a(,b,c") ≡ codes "a(,b,c" ∷ [] }
    ensures commas_part_items_blank { entries (codes " \t") ≡ [] }
    ensures none { entries [] ≡ [] }
    ensures some { entries (codes " a ") ≡ codes "a" ∷ [] }
    // Behind a name stand at most two pairs of parentheses, and nothing else.
    ensures parentheses_stand_behind_a_name_bare { form_of (codes " a ") ≡ Some (record { head = codes "a"; inside = [] }) }
    ensures parentheses_stand_behind_a_name_one { form_of (codes "a ( b ) ") ≡ Some (record { head = codes "a"; inside = codes "b" ∷ [] }) }
    ensures parentheses_stand_behind_a_name_two { form_of (codes "a(b) (c)")
        ≡ Some (record { head = codes "a"; inside = codes "b" ∷ codes "c" ∷ [] }) }
    ensures parentheses_stand_behind_a_name_nested { form_of (codes "a(b(c)d)")
        ≡ Some (record { head = codes "a"; inside = codes "b(c)d" ∷ [] }) }
    ensures parentheses_stand_behind_a_name_three { form_of (codes "a(b)(c)(d)") ≡ None }
    ensures between { form_of (codes "a(b)c(d)") ≡ None }
    ensures behind { form_of (codes "a(b)c") ≡ None }
    ensures behind_two { form_of (codes "a(b)(c)d") ≡ None }
    ensures parentheses_stand_behind_a_name_open { form_of (codes "a(b") ≡ None }
    ensures open_again { form_of (codes "a(b)(c") ≡ None }
    // A word has one or more bytes, none of them a blank or one of `,()/@[]`.
    ensures words_have_no_marks_one { is_word (codes "x") ≡ true }
    ensures others { is_word (codes "a-1*#.;=+") ≡ true }
    ensures words_have_no_marks_empty { is_word [] ≡ false }
    ensures words_have_no_marks_marks { list_any is_word (codes "a b" ∷ codes "a\tb" ∷ codes "a," ∷ codes "(a" ∷ codes "a)" ∷ codes "a/b"
        ∷ codes "a@b" ∷ codes "[a" ∷ codes "a]" ∷ []) ≡ false }
{}

/// Each sentence at an example.
pub fn further_sentences_have_examples()
    // A name is a word, with `@` and a word behind it or not.
    ensures names_may_have_a_connection_bare { is_name (codes "dl") ≡ true }
    ensures connection { is_name (codes "dl@1") ≡ true }
    ensures names_may_have_a_connection_empty { is_name [] ≡ false }
    ensures no_connection { is_name (codes "dl@") ≡ false }
    ensures two_connections { is_name (codes "dl@1@2") ≡ false }
    ensures bare_connection { is_name (codes "@1") ≡ false }
    ensures names_may_have_a_connection_blank { is_name (codes "d l") ≡ false }
    ensures package { is_name (codes "L/dl") ≡ false }
    // Parameters are one or more, none of them empty or with parentheses; blanks and other marks may stand in them.
    ensures parameters_stand_between_commas_one { are_parameters (codes "to=5") ≡ true }
    ensures parameters_stand_between_commas_two { are_parameters (codes "+, a b") ≡ true }
    ensures parameters_stand_between_commas_marks { are_parameters (codes "a/b@[c]") ≡ true }
    ensures parameters_stand_between_commas_empty { are_parameters [] ≡ false }
    ensures parameters_stand_between_commas_blank { are_parameters (codes " \t") ≡ false }
    ensures empty_second { are_parameters (codes "+,") ≡ false }
    ensures parameters_stand_between_commas_nested { are_parameters (codes "(x)") ≡ false }
    ensures parameters_stand_between_commas_open { are_parameters (codes "x(") ≡ false }
    ensures parameters_stand_between_commas_closed { are_parameters (codes "x)") ≡ false }
    // Behind a head that is spelled stand parameters in one pair of parentheses, or none.
    ensures one_pair_has_parameters_bare { with_parameters true [] ≡ true }
    ensures one_pair_has_parameters_one { with_parameters true (codes "+" ∷ []) ≡ true }
    ensures one_pair_has_parameters_empty { with_parameters true ([] ∷ []) ≡ false }
    ensures second { with_parameters true (codes "+" ∷ codes "+" ∷ []) ≡ false }
    ensures no_head { with_parameters false [] ≡ false }
    ensures no_head_before_parameters { with_parameters false (codes "+" ∷ []) ≡ false }
{}
