//! Sessions over ends that give or take little at a time, or fail.

use crate::memory::{Pieces, Sink, session_over};
use gate_sources::RUN_AND_UNDOS;
use om_shell::ShellFault;
use std::alloc::Global;
use std::sync::Wait;
use std::thread::Threads;

// The input of a session of two workers, and all that is written in it.
#[derive(Clone, Copy)]
struct Script {
    input: &'static str,
    output: &'static str,
    // How many reads there are at two bytes each. The last one tells the end.
    reads: u64,
    // How many writes and flushes there are: one of each for a command, and a flush at the end.
    calls: u64,
}

// One worker's steps, two workers' lost update, and a Fibonacci number by tasks.
const SCRIPTS: [Script; 3] = [
    Script {
        input: r#"int x; int main(void){ x = 1; x = x + 2; return x; }
%%
step 0
step 0
step 0
step 0
step 0
step 0
print x
undo 0
print x
"#,
        output: r#"#1 worker 0 line 1
#2 worker 0 line 1
#3 worker 0 line 1
#4 worker 0 line 1
#5 worker 0 line 1
#6 worker 0 line 1
x = 3
undone #6 worker 0 line 1
x = 1
"#,
        reads: 62,
        calls: 19,
    },
    Script {
        input: r#"int x;
int main(void){
#pragma omp parallel
x = x + 1;
}
%%
step 0
step 0
step 1
step 0
step 1
step 0
step 0
step 0
step 1
step 1
step 1
print x
undo 0
undo 1
undo 0
print x
"#,
        output: r#"#1 worker 0 line 3
#2 worker 0 line 3
#3 worker 1 line 3
#4 worker 0 line 4
#5 worker 1 line 4
#6 worker 0 line 4
#7 worker 0 line 4
#8 worker 0 line 4
#9 worker 1 line 4
#10 worker 1 line 4
#11 worker 1 line 4
x = 1
refused by #11 worker 1 on global x
undone #11 worker 1 line 4
undone #8 worker 0 line 4
x = 0
"#,
        reads: 88,
        calls: 33,
    },
    Script {
        input: RUN_AND_UNDOS,
        output: r#"ran 68 ended
output 2 bytes
1

1 thread_begin 1
7 implicit_task 1 - 0 1 1 1
3 parallel_begin 0 0.1 2
7 implicit_task 1 0.1 0.1.0 2 0 2
20 work 3 1 0.1 0.1.0 1
5 task_create 0.1.0 0.1.0.1 4
5 task_create 0.1.0 0.1.0.2 4
23 sync_region 5 1 0.1 0.1.0
6 task_schedule 0.1.0 7 0.1.0.1
6 task_schedule 0.1.0.1 1 0.1.0
6 task_schedule 0.1.0 7 0.1.0.2
6 task_schedule 0.1.0.2 1 0.1.0
23 sync_region 5 2 0.1 0.1.0
20 work 3 2 0.1 0.1.0 1
23 sync_region 8 1 0.1 0.1.0
23 sync_region 8 2 0.1 0.1.0
23 sync_region 9 1 0.1 0.1.0
23 sync_region 9 2 - 0.1.0
7 implicit_task 2 - 0.1.0 0 0 2
4 parallel_end 0.1 0
7 implicit_task 2 - 0 0 1 1
undone #68 worker 1 line 13
refused by #66 worker 0 on arrived 0.1 1
undone #67 worker 0 line 16
undone #66 worker 0 line 13
"#,
        reads: 166,
        calls: 15,
    },
];

// More calls of an end than any of these sessions makes.
const MANY: u64 = 10_000;

impl Script {
    // Its input, two bytes a read; the read after so many of them fails.
    fn reader(&self, reads_left: u64) -> Pieces<'static> {
        Pieces {
            bytes: self.input.as_bytes(),
            most: 2,
            reads_left,
        }
    }

    // Whether the answers are the same for any number of bytes that a read gives or a write takes.
    fn takes_any_pieces<R: Threads + Wait + Sync>(&self, rt: &R, alloc: Global) -> bool {
        let mut all = true;
        for most in [1, 2, 3, 7, 4096] {
            let reader = Pieces {
                bytes: self.input.as_bytes(),
                most,
                reads_left: MANY,
            };
            let writer = Sink::new(alloc, most, MANY);
            all &= session_over(rt, alloc, None, reader, writer).is_whole(self.output);
        }
        all
    }

    // Whether a read that fails, each in turn, breaks the session off, and there are no others.
    fn meets_failing_reads<R: Threads + Wait + Sync>(&self, rt: &R, alloc: Global) -> bool {
        let mut all = true;
        for reads_left in 0..self.reads {
            let writer = Sink::new(alloc, 4096, MANY);
            let met = session_over(rt, alloc, None, self.reader(reads_left), writer);
            all &= met.is_broken_off(ShellFault::Read, self.output);
        }
        let writer = Sink::new(alloc, 4096, MANY);
        all && session_over(rt, alloc, None, self.reader(self.reads), writer).is_whole(self.output)
    }

    // Whether a write or flush that fails, each in turn, breaks the session off, and there are no others.
    fn meets_failing_writes<R: Threads + Wait + Sync>(&self, rt: &R, alloc: Global) -> bool {
        let mut all = true;
        for calls_left in 0..self.calls {
            let writer = Sink::new(alloc, 4096, calls_left);
            let met = session_over(rt, alloc, None, self.reader(MANY), writer);
            all &= met.is_broken_off(ShellFault::Write, self.output);
        }
        let writer = Sink::new(alloc, 4096, self.calls);
        all && session_over(rt, alloc, None, self.reader(MANY), writer).is_whole(self.output)
    }
}

/// Whether reads that give little, and reads and writes that fail, leave nothing wrong written.
pub(crate) fn ends_may_fail<R: Threads + Wait + Sync>(rt: &R, alloc: Global) -> bool {
    let mut all = true;
    for script in SCRIPTS {
        all &= script.takes_any_pieces(rt, alloc);
        all &= script.meets_failing_reads(rt, alloc);
        all &= script.meets_failing_writes(rt, alloc);
    }
    all
}

/// Whether the whole input is commands where the source is handed in.
pub(crate) fn source_may_be_handed_in<R: Threads + Wait + Sync>(rt: &R, alloc: Global) -> bool {
    let reader = Pieces {
        bytes: b"%%\nstep 0\nstep 2\nprint x",
        most: 4096,
        reads_left: MANY,
    };
    let source = b"int x = -3; int main(void) { }";
    session_over(
        rt,
        alloc,
        Some(source),
        reader,
        Sink::new(alloc, 4096, MANY),
    )
    .is_whole("H1 unknown command\n#1 worker 0 line 1\nH2 bad argument\nx = -3\n")
}
