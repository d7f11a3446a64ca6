//! A pool: workers in threads of their own, beside a calling thread that puts datagrams for them and is given each back once it is
//! finished. Workers for whom nothing waits sleep.
#![tactic(auto)]

mod bell;
mod counts;
mod pass;
mod pool;
mod run;
mod serving;
mod tally;
mod work;
mod worker;

pub use pass::PoolPass;
pub use pool::{Pool, open_pool};
pub use run::pool_run;
pub use serving::Serving;
pub use tally::Tally;
pub use work::{collect, put, work_one};
