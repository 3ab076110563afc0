use field_grammar::{
    FieldFault, Format, fields_are_decided, prefix_is_decided, reading_is_exact, whole_is_decided,
};

struct Number;

impl Format for Number {
    ghost use Rattle.field_grammar.specs.Fields.{number};

    type Value = u16;

    type Fault = FieldFault;

    ghost grammar = { number 2 };
}

struct Nothing;

impl Format for Nothing {
    ghost use Rattle.field_grammar.specs.Grammar.{ended};
    ghost use Rattle.field_grammar.specs.declared.fault.FieldFault.TheVariants.{Short};

    type Value = ();

    type Fault = FieldFault;

    ghost grammar = { ended Short };
}

#[test]
#[tactic(auto, using(field_grammar::proofs::ExactLemmas::ends_at_end))]
fn laws_hold_of_a_format(_rt: HostRuntime) {
    reading_is_exact::<Number>();
    prefix_is_decided::<Number>();
    whole_is_decided::<Nothing>();
}

#[test]
fn laws_hold_of_the_fields(_rt: HostRuntime) {
    fields_are_decided();
}
