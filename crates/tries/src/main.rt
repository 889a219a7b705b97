// Tries the verdicts on the wet-hole plan with a minutes list that is one number short, and with one that is just enough.
#![tactic(auto)]

use book::keeping::Book;
use examples::plans::wet_hole;
use find::Refusal;
use rules::parts::Origin;
use std::io;
use verdicts::{DynamicAnswer, StrongAnswer, WeakAnswer, dynamic, strong, weak};

// Prints that a verdict was refused.
fn refused(rt: HostRuntime, verdict: &str, why: Refusal) -> io::Result<()> {
    println!(rt; "{verdict} refused with {}", why.number())
}

// Prints the three verdicts on a book, with the numbers that each leaves in the list.
fn try_verdicts(rt: HostRuntime, book: &Book, minutes: &mut [i32]) -> io::Result<()> {
    let mut loops = [Origin::Start(0); 20];
    match strong(book, minutes, &mut loops) {
        Ok(StrongAnswer::Yes) => println!(rt; "strong yes")?,
        Ok(StrongAnswer::No { length }) => println!(rt; "strong no, a loop of {length}")?,
        Err(why) => refused(rt, "strong", why)?,
    }
    match weak(book, minutes, &mut loops) {
        Ok(WeakAnswer::Yes) => println!(rt; "weak yes")?,
        Ok(WeakAnswer::No { case, length }) => println!(rt;
            "weak no in case {case}, a loop of {length}"
        )?,
        Err(why) => refused(rt, "weak", why)?,
    }
    match dynamic(book, minutes) {
        Ok(DynamicAnswer::Yes) => println!(rt; "dynamic yes")?,
        Ok(DynamicAnswer::No) => println!(rt; "dynamic no")?,
        Err(why) => refused(rt, "dynamic", why)?,
    }
    for minute in minutes.iter() {
        println!(rt; "{minute}")?;
    }
    Ok(())
}

fn main(rt: HostRuntime) -> io::Result<()> {
    let book = wet_hole(rt.alloc())?;
    println!(rt; "a minutes list of 9")?;
    try_verdicts(rt, &book, &mut [7; 9])?;
    println!(rt; "a minutes list of 10")?;
    try_verdicts(rt, &book, &mut [7; 10])
}
