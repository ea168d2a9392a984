ghost use Rattle.std.specs.Prelude.{◌≤◌, length, IsOkUnless};
ghost use Rattle.text_reader.specs.Trees.{ReadsTree};
ghost use Rattle.text_scenario.specs.Grammar.{IsTextOf};
ghost use Rattle.text_scenario.specs.declared.tree.ScenarioText.{ScenarioText};

use crate::error::RunError;
use std::alloc::Global;
use text_scenario::{ScenarioText, TextError, read_text};

/// Returns the tree of a text of at most 1,048,576 bytes. A text that is none is refused with its first bad line, from 1 to one
/// past the last.
pub fn read_tree(alloc: Global, text: &[u8]) -> Result<ScenarioText, RunError>
    requires { length text.now ≤ 1048576 }
    // A tree is the text's own, and a line is the bad one.
    ensures answer { ReadsTree text.now result }
    // A scenario's text is refused for lack of memory alone.
    ensures only { (tree : ScenarioText) → IsTextOf tree text.now → IsOkUnless result RunError.NoMemory }
{
    match read_text(alloc, text) {
        Ok(tree) => Ok(tree),
        Err(TextError::NoMemory) => Err(RunError::NoMemory),
        Err(TextError::Bad(line)) => Err(RunError::BadScenario(line)),
    }
}
