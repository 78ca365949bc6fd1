//! What is true of every script.

ghost use Rattle.om_shell.specs.Laws.{OneScript, OneScriptByVerdict};

use om_frontend::laws::one_verdict;

/// Where no command is a free run, what is written is decided by the bytes that are read: they decide the
/// verdict on the source, and with it the script.
pub fn one_script()
    ensures by_verdict { OneScriptByVerdict }
    ensures of_input { OneScript }
{
    one_verdict();
}
