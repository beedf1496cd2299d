//! The store in memory: its words are the command, standard input the script, standard output the replies.
#![tactic(auto)]

mod run;

use run::{Ended, run};

fn main(rt: HostRuntime) -> Ended {
    run(&rt)
}
