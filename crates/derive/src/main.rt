// Reads grammar.txt and graph.txt, and prints a derivation of the graph with the fewest applications and the steps,
// or the refusal. A file that is there and cannot be read is no text: nothing is printed.

#![tactic(auto)]

// Prints what the driver answers to the two texts.
fn derive<R: Print + Eprint>(rt: &R, grammar: &[u8], graph: &[u8]) {
    let mut out = [0u8; 32774];
    let count = driver::derive(grammar, graph, &mut out);
    files::print(rt, &out[..count]);
}

fn main(rt: HostRuntime) {
    files::with_text(&rt, b"grammar.txt", |grammar| {
        files::with_text(&rt, b"graph.txt", |graph| derive(&rt, grammar, graph));
    });
}
