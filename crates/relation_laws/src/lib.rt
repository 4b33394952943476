// The laws of the weight, short and noise relations.
#![tactic(auto)]

ghost use Rattle.relation_laws.specs.Lawful.{WeightLawful, ShortLawful, NoiseLawful, KeysNumbered};

// Every weight statement that can be made gives a relation with all the laws.
pub fn weight_is_lawful()
    ensures { WeightLawful }
{}

// Every short statement that can be made gives a relation with all the laws.
pub fn short_is_lawful()
    ensures { ShortLawful }
{}

// Every noise statement that can be made gives a relation with all the laws.
pub fn noise_is_lawful()
    ensures { NoiseLawful }
{}

// A key outside a statement of each kind is refused by one of the key's numbers.
pub fn keys_are_numbered()
    ensures { KeysNumbered }
{}
