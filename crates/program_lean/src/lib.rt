// The numbers of dropped keys as the programs print them. Nothing that decides anything stands here.
#![tactic(auto)]

use std::io;

// Numbers with commas between them; `-` for none.
pub fn print_dropped(rt: &impl Print, numbers: &[usize]) -> io::Result<()> {
    match numbers {
        [] => print!(rt; "-"),
        [first, more @ ..] => {
            print!(rt; "{first}")?;
            for number in more {
                print!(rt; ",{number}")?;
            }
            Ok(())
        }
    }
}
