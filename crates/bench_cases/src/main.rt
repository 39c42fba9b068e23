// The scope's bench cases that are not starred, and cases of weights, run one after another; the starred ones are a claim of
// `starred_cases`.
#![tactic(auto)]

mod cases;
mod files;
mod text;

// Whether all could be printed is seen where the output is compared.
fn main(rt: HostRuntime) {
    cases::run(&rt);
}
