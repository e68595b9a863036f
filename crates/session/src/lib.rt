// Sessions: what a text's lines declare and ask for. What they are stands in specs/.
#![tactic(auto)]

ghost use Rattle.std.specs.Prelude.{◌≡◌};
ghost use Rattle.session.specs.Place.{rule_of};

use text::Kind;

// The parts of a text: the model, and the run behind an accepted (start).
#[derive(Clone, Copy)]
pub enum Part {
    Model,
    Run,
}

// What a line of a kind needs in a part of the text.
#[derive(Clone, Copy)]
pub enum Rule {
    // not the grammar
    NoForm,
    // it stands in the wrong part
    Misplaced,
    // nothing more
    Anywhere,
    // none of its kind before it
    OneTotal,
    OneDiscount,
    OneReward,
    // an action before it, or a variant of the last action
    AfterAction,
    AfterVariant,
    // a reward, an action, and a variant of each action
    WholeModel,
    // an accepted (objects n) before it, or that and every constant placed
    AfterObjects,
    WholeState,
    // that too, for (best), which has a number of its own where it is missing
    MoveState,
    // every constant placed
    Constants,
}

// One decision over the kind of line against the part of the text that it stands in.
pub fn rule_of(kind: Kind, part: Part) -> Rule
    ensures { result ≡ rule_of kind part }
{
    match part {
        Part::Model => match kind {
            Kind::Constant => Rule::Anywhere,
            Kind::Predicate => Rule::Anywhere,
            Kind::Total => Rule::OneTotal,
            Kind::Discount => Rule::OneDiscount,
            Kind::Reward => Rule::OneReward,
            Kind::Action => Rule::Anywhere,
            Kind::Variant => Rule::AfterAction,
            Kind::Becomes => Rule::AfterVariant,
            Kind::Start => Rule::WholeModel,
            Kind::Objects => Rule::Misplaced,
            Kind::Is => Rule::Misplaced,
            Kind::True => Rule::Misplaced,
            Kind::Value => Rule::Misplaced,
            Kind::Backup => Rule::Misplaced,
            Kind::Cut => Rule::Misplaced,
            Kind::Show => Rule::Misplaced,
            Kind::Reduce => Rule::Misplaced,
            Kind::Text => Rule::Misplaced,
            Kind::Best => Rule::Misplaced,
            Kind::Count => Rule::Misplaced,
            Kind::Did => Rule::Misplaced,
            Kind::Bad => Rule::NoForm,
        },
        Part::Run => match kind {
            Kind::Constant => Rule::Misplaced,
            Kind::Predicate => Rule::Misplaced,
            Kind::Total => Rule::Misplaced,
            Kind::Discount => Rule::Misplaced,
            Kind::Reward => Rule::Misplaced,
            Kind::Action => Rule::Misplaced,
            Kind::Variant => Rule::Misplaced,
            Kind::Becomes => Rule::Misplaced,
            Kind::Start => Rule::Misplaced,
            Kind::Objects => Rule::Anywhere,
            Kind::Is => Rule::AfterObjects,
            Kind::True => Rule::AfterObjects,
            Kind::Value => Rule::WholeState,
            Kind::Backup => Rule::Anywhere,
            Kind::Cut => Rule::Anywhere,
            Kind::Show => Rule::Anywhere,
            Kind::Reduce => Rule::Anywhere,
            Kind::Text => Rule::Anywhere,
            Kind::Best => Rule::MoveState,
            Kind::Count => Rule::Constants,
            Kind::Did => Rule::WholeState,
            Kind::Bad => Rule::NoForm,
        },
    }
}
