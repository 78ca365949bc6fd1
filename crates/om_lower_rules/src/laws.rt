//! Laws of the code of a tree, whoever made it, and of the serial meaning.

ghost use Rattle.om_lower_rules.specs.Layouts.{TrueLayouts};
ghost use Rattle.om_lower_rules.specs.Laws.{BodyIsLevel, CodeFaults, CodeIsLevel, CodeIsValid, EffectRowsHaveCode};
ghost use Rattle.om_lower_rules.specs.Laws.{FormatsAreNumbered, FunctionBodies, OneBodyCode, OneCode, RowsHaveCode};
ghost use Rattle.om_lower_rules.specs.Laws.{StatementRowsHaveCode, ValueRowsHaveCode, WholeHasCode};
ghost use Rattle.om_lower_rules.specs.MeaningLaws.{ElementGivesOld, IntsStay, IntsStayBehind, PostfixGivesOld};
ghost use Rattle.om_lower_rules.specs.MeaningLaws.{SerialMeaning, StatementMeans, ValueMeans};
ghost use Rattle.om_lower_rules.specs.SourceOperators.{BinariesAgree, CompoundsAgree, StepsAgree, UnariesAgree};

/// A tree has at most one code.
pub fn one_code()
    ensures { OneCode }
{}

/// So has one body alone, and the ways through it are the same, whatever lists of PICK the rest of the
/// program has.
pub fn one_body_code()
    ensures { OneBodyCode }
{}

/// The code of a tree keeps to its bodies and its levels: whichever way an instruction is reached,
/// as many operands stand below it, and those that it takes are there.
pub fn code_is_level()
    ensures { CodeIsLevel }
{}

/// The same of one body alone, for whoever makes the code body by body.
pub fn body_is_level()
    ensures { BodyIsLevel }
{}

/// Each part of a whole tree has a row of code, if each `atomic` that reads or writes is about an
/// assignment. That there is code with these rows is no law: who lowers a tree makes it, or a limit is
/// passed, or it is out of memory.
pub fn whole_has_code()
    ensures { WholeHasCode }
{}

/// A tree whose rows hold has no part without a row, whatever the numbers of its values and parts.
pub fn rows_have_code()
    ensures tree { RowsHaveCode }
    ensures value { ValueRowsHaveCode }
    ensures effect { EffectRowsHaveCode }
    ensures statement { StatementRowsHaveCode }
{}

/// The code of a whole tree is valid where each body has fewer than 2^32 instructions and at most 2^32 slots, and
/// no way has more than 256 operands. With so few instructions and slots it can break the rule on operands alone.
///
/// So whoever finds such code refused has too many operands in it, or is out of memory.
pub fn code_is_valid()
    ensures valid { CodeIsValid }
    ensures faults { CodeFaults }
{}

/// The body of a function, by its number, is the code of that function.
pub fn function_bodies()
    ensures { FunctionBodies }
{}

/// Each format that a program mentions has a number.
pub fn formats_are_numbered()
    ensures { FormatsAreNumbered }
{}

/// The code of an expression gives its value, in the world that the expression leaves, or meets its fault.
pub fn value_means()
    ensures { ValueMeans }
{}

/// The code of a statement goes on where the statement does, in its world, or ends the body as it does.
pub fn statement_means()
    ensures { StatementMeans }
{}

/// The code of a function without calls and directives does what the function means.
///
/// It ends where the meaning ends, with its value, its globals and its output. It faults where that faults,
/// with its fault and its output. Where loops have only n turns and are out of them, it does neither within n
/// instructions. And it ends and faults nowhere else.
pub fn serial_meaning()
    ensures { SerialMeaning }
{
    function_bodies();
    formats_are_numbered();
}

/// In each body of the code of a whole tree, two different variables that it names have two different
/// places, and a global is the global of its number. Each has the cells that are declared. What the
/// body means asks for no other variables.
pub fn true_layouts()
    ensures { TrueLayouts }
{}

/// What the instruction of an operator gives is what the operator of the source gives, and it meets the
/// same fault. So it is for operators of one operand and of two, for compound assignments, and for the
/// step of `x++` and `x--` and what takes it back.
pub fn operators_agree()
    ensures binaries { BinariesAgree }
    ensures unaries { UnariesAgree }
    ensures compounds { CompoundsAgree }
    ensures steps { StepsAgree }
{}

/// The value of `x++`, `x--`, `a[j]++` and `a[j]--` is the old one, where variables hold ints.
pub fn postfix_gives_old()
    ensures variable { PostfixGivesOld }
    ensures element { ElementGivesOld }
{}

/// From variables that hold ints an expression leaves an int, and variables that hold ints.
///
/// So does a statement, wherever it goes on.
pub fn ints_stay()
    ensures expression { IntsStay }
    ensures statement { IntsStayBehind }
{}
