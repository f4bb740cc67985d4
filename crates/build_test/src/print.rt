// The number and the counts of an answer, and parts of the lists.
use curator::CuratorIndex;
use settings::refusal::Refusal;
use std::io;

pub fn number_of(answer: Result<CuratorIndex, Refusal>) -> u32 {
    match answer {
        Err(refusal) => refusal.number(),
        Ok(_) => 0,
    }
}

pub fn print_answer(rt: &impl Print, answer: Result<CuratorIndex, Refusal>) -> io::Result<()> {
    print!(rt; "{}", number_of(answer))?;
    if let Ok(index) = answer {
        let counts = index.counts;
        print!(rt; " {} {} {}", counts.vectors, counts.entries, counts.nodes)?;
        if index.built {
            print!(rt; " built")?;
        } else {
            print!(rt; " unbuilt")?;
        }
    }
    Ok(())
}

pub fn print_kept(rt: &impl Print, kept: bool) -> io::Result<()> {
    if kept {
        println!(rt; " kept")
    } else {
        println!(rt; " changed")
    }
}

// A line of the places of a list from one to another, each written by `show`.
pub fn print_places<T, F: Fn(&T) -> io::Result<()>>(
    rt: &impl Print,
    name: &str,
    list: &[T],
    from: usize,
    to: usize,
    show: F,
) -> io::Result<()>
    requires { F.IsAlwaysCallable show }
{
    print!(rt; "{name}")?;
    for x in list.iter().take(to).skip(from) {
        show(x)?;
    }
    println!(rt; "")
}
