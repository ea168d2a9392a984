ghost use Rattle.std.specs.Prelude.{◌≡◌, ◌≤◌, ◌++◌, IfOk, OnOk, length, string_bytes};
ghost use Rattle.std.specs.List.{flat_map};
ghost use Rattle.text_report.specs.Generated.{each_to, finish_line, gen, start_line};
ghost use Rattle.text_scenario.specs.declared.tree.ScenarioText.{ScenarioText};
ghost use Rattle.text_scenario.specs.Grammar.{IsTextOf};
ghost use Rattle.machine_rules.specs.Texts.{line_text};

use machine_data::NoMemory;
use std::alloc::{AllocError, Global};

// The lines before the first start: the head, a host and three instances.
const FIXED: &str =
    "scenario 1\nhandles 100000\ntable 1000000\nidle trap\nhost disk polls 9 value 100\n\
instance db\nexport get callback 1\nbp_inc\nset r9 r0\ncall r3 r8 disk\nset_new r4\nhandle r5 r3\njoin r5 r4\ncb_wait r4\n\
react\nadd r8 r9\ndrop r1\nset_drop r4\nbp_dec\nret r8\nexit\n\
instance api\nexport do callback 1\nset r9 r0\ncall r3 r8 db.get r9\nhandle r5 r3\nset_new r4\njoin r5 r4\ncb_wait r4\n\
react\nskip_eq r2 2 1\ncb_wait r4\ndrop r1\nset_drop r4\nadd r8 1\nret r8\nexit\n\
instance edge\nexport req stackful 1\ncall_sync r3 api.do r0\nret r3\nexit\n\
main\n";

fn add_starts(text: &mut String, number: u32) -> Result<(), AllocError>
    ensures { OnOk result (string_bytes text.new ≡ string_bytes text.old ++ flat_map line_text (each_to start_line number)) }
{
    for before in 0..number {
        write!(text, "start edge.req {}\n", before + 1)?;
    }
    Ok(())
}

fn add_finishes(text: &mut String, number: u32) -> Result<(), AllocError>
    ensures { OnOk result (string_bytes text.new ≡ string_bytes text.old ++ flat_map line_text (each_to finish_line number)) }
{
    for before in 0..number {
        write!(text, "finish {} r0\n", before + 1)?;
    }
    Ok(())
}

/// Returns the generated scenario's text, with 1 to 256 requests. It has one host and three instances, of which the first raises
/// its backpressure while it waits for the host, and main starts all requests before it finishes the first. It is a text of the
/// scenario grammar.
pub fn make_scenario(alloc: Global, number: u32) -> Result<Vec<u8>, NoMemory>
    requires some { 1 ≤ number }
    requires few { number ≤ 256 }
    ensures text { IfOk result (λ text. text.items ≡ gen number) }
    ensures short { IfOk result (λ text. length text.items ≤ 65536) }
    ensures reads { IfOk result (λ text. (tree : ScenarioText) × IsTextOf tree text.items) }
{
    let mut text = String::from_str(alloc, FIXED)?;
    add_starts(&mut text, number)?;
    add_finishes(&mut text, number)?;
    text.push_str("answer r0\nend\n")?;
    Ok(text.into_bytes())
}
