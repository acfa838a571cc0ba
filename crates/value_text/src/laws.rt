// Laws of the text of values, each carried by a call.
ghost use Rattle.value_text.specs.Claims.{ArgumentsAreFormed, ArgumentsAreLight, ArgumentsAreRead, ArgumentsHaveTypes, FoundIntegersStand, IntegersAreFound, LinesReadBack, NamesGoOn, NothingElseGoesOn, OnlyArgumentsAreRead, OnlyTextsAreRead, OutputReadsBack, TextReadsBack, TextsAreRead, ValuesReadBack};

/// The law that a text of the grammar (`specs/Grammar.antt`) reads as its values, and no other text as any.
pub fn texts_are_read()
    ensures all { TextsAreRead }
    ensures only { OnlyTextsAreRead }
{}

/// The law that a name goes on exactly where a text begins with the UTF-8 of a character that continues one.
pub fn names_go_on()
    ensures all { NamesGoOn }
    ensures only { NothingElseGoesOn }
{}

/// The law that the text of a value reads as that value, and what is printed reads as the values that were printed.
pub fn printed_values_read_back()
    ensures one { TextReadsBack }
    ensures all { OutputReadsBack }
{}

/// The law that an integer is read as the value of its type that stands for it, if there is one.
pub fn integers_are_kept()
    ensures stand { FoundIntegersStand }
    ensures found { IntegersAreFound }
{}

/// The law that a text of the grammar of scalars and arrays (`specs/Values.antt`) reads as its values, and no other text as any.
pub fn arguments_are_read()
    ensures all { ArgumentsAreRead }
    ensures only { OnlyArgumentsAreRead }
{}

/// The law that values which a text reads as are of their parameters' types, well formed, and of weight at most 33,554,432.
pub fn arguments_fit()
    ensures typed { ArgumentsHaveTypes }
    ensures formed { ArgumentsAreFormed }
    ensures light { ArgumentsAreLight }
{}

/// The law that the text of a value of weight at most 33,554,432 reads as that value, where its parameter has its sizes, and
/// what is printed reads as the values that were printed.
pub fn values_read_back()
    ensures one { ValuesReadBack }
    ensures all { LinesReadBack }
{}
