// What is read of a text or of a list of words.
use crate::show;
use instance::Instance;
use printing::print_list;
use ranges::MOST_TEXT_WORDS;
use std::io;

fn print_words(rt: &impl Print, words: &[u32]) -> io::Result<()> {
    rt.print("words")?;
    print_list(rt, words)?;
    println!(rt)
}

fn print_front(rt: &impl Print, words: &[u32], n: usize) -> io::Result<()> {
    match words.get(..n) {
        Some(front) => print_words(rt, front),
        None => Ok(()),
    }
}

// The words of a text, read into a buffer with room for all.
pub(crate) fn text(rt: &impl Print, bytes: &[u8]) -> io::Result<()> {
    let mut words = [7u32; MOST_TEXT_WORDS as usize];
    match text::words_of_text(bytes, &mut words) {
        Ok(n) => print_front(rt, &words, n),
        Err(why) => show::refusal(rt, why),
    }
}

// The same with a buffer of three words that held 7, 8 and 9, and what the buffer holds then.
pub(crate) fn text_into_three(rt: &impl Print, bytes: &[u8]) -> io::Result<()> {
    let mut words = [7u32, 8, 9];
    match text::words_of_text(bytes, &mut words) {
        Ok(n) => print!(rt; "{n} ")?,
        Err(why) => show::refusal(rt, why)?,
    }
    print_words(rt, &words)
}

// Cores and idle power, and start ticks where there are some.
fn print_settings(rt: &impl Print, inst: &Instance) -> io::Result<()> {
    print!(rt; "cores {} idle {}", inst.cores, inst.idle)?;
    if 0 < inst.start {
        print!(rt; " start {}", inst.start)?;
    }
    Ok(())
}

fn print_instance(rt: &impl Print, inst: &Instance) -> io::Result<()> {
    print_settings(rt, inst)?;
    print!(rt;
        " levels {} tasks {} span {}",
        inst.levelcount, inst.taskcount, inst.span
    )?;
    rt.print(" deadlines")?;
    for task in inst.tasks.iter().take(inst.taskcount) {
        print!(rt; " {}", task.deadline)?;
    }
    println!(rt)
}

// The instance that a list of words is: cores, idle power, start ticks, levels, tasks, span and the deadline of each task.
pub(crate) fn words(rt: &impl Print, list: &[u32]) -> io::Result<()> {
    match instance::read_instance(list) {
        Ok(inst) => print_instance(rt, &inst),
        Err(why) => show::refusal(rt, why),
    }
}
