//! Cases and checks: the program of tasks that more than one crate of checks runs, and sessions over it.
#![tactic(auto)]

// A source that prints the Fibonacci number of this index, by a task for each call, and what stands after it.
macro_rules! fibonacci {
    ($index:literal, $rest:literal) => {
        concat!(
            r#"#include <stdio.h>
int fib(int n){
int a, b;
if (n < 2) return n;
#pragma omp task shared(a)
a = fib(n - 1);
#pragma omp task shared(b)
b = fib(n - 2);
#pragma omp taskwait
return a + b;
}
int main(void){
#pragma omp parallel
#pragma omp single
printf("%d\n", fib("#,
            $index,
            r#"));
}
"#,
            $rest
        )
    };
}

/// The source that prints the fourth Fibonacci number. It makes 188 steps in all, whoever makes them.
pub const FIBONACCI_OF_4: &str = fibonacci!(4, "");

/// Ten free runs of that source, and what they leave. After each of them at least one more of its waits has ended: so
/// ten suffice, in whatever order the workers come.
pub const FREE_RUNS: &str = fibonacci!(
    4,
    r#"%%
free 1000
free 1000
free 1000
free 1000
free 1000
free 1000
free 1000
free 1000
free 1000
free 1000
history
where 0
output
"#
);

/// A run of the second Fibonacci number to its end, its output and events, and undos of its last steps.
pub const RUN_AND_UNDOS: &str = fibonacci!(
    2,
    r#"%%
run 100000
output
events 0
undo 1
undo 1
undo 0
undo 0
"#
);
