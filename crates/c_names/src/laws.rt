// Laws of the texts.
ghost use Rattle.c_names.specs.Texts.{TextsNameOneThing, NumbersNameOneFrame};

/// A text names at most one event or object, and different names have different texts.
pub fn law_texts()
    ensures { TextsNameOneThing }
{}

/// Over one list of frames, different events and objects have different names.
pub fn law_numbers()
    ensures { NumbersNameOneFrame }
{}
