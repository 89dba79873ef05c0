//! Whether the jumps and brackets of each routine keep their rules.

ghost use Rattle.std.specs.Prelude.{OnOk, IfErr};
ghost use Rattle.cse_code_typing.specs.Rules.{AllKeepRules, FailsJumps};

use crate::brackets::check_code;
use crate::refusal::Refusal;
use crate::routine_code::RoutineCode;
use cse_fault_numbers::BAD_JUMP;
use cse_image::{Code, Program};

/// Whether each routine keeps the rules of jumps and brackets (own). An opener and a later END that
/// name each other are a bracket, and the places after the opener up to the END are inside it. Each
/// opener and each END is part of one; an opener's END is inside every bracket around the opener, of
/// which there are at most 63. A jump leads to a greater place with the same innermost bracket, a
/// break names the END of its own innermost bracket, and the last instruction is RET. Else 65, at the
/// least place of the least routine that breaks a rule. It takes no memory. The time grows with the number
/// of instructions, and with how far each jump leads.
pub fn check_jumps_and_brackets<C: Code>(program: &Program<C>) -> Result<(), Refusal>
    ensures keeps { OnOk result (AllKeepRules program.now) }
    ensures fails { IfErr result (FailsJumps program.now) }
{
    let code = program.code();
    let _fits = code.len();
    let tables = program.tables();
    let mut start = 0;
    let mut routine = 0;
    for head in &tables.routines {
        let skeleton = RoutineCode::new(code, tables, start, head.instructions);
        if let Some(at) = check_code(&skeleton, None) {
            return Err(Refusal {
                number: BAD_JUMP,
                routine,
                at,
            });
        }
        start += head.instructions as usize;
        routine += 1;
    }
    Ok(())
}
