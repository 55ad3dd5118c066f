// Reads grammar.txt, graph.txt and derivation.txt, and prints the first refusal, 0 for a pass. A file that is
// there and cannot be read is no text: nothing is printed.

#![tactic(auto)]

fn main(rt: HostRuntime) {
    files::with_text(&rt, b"grammar.txt", |grammar| {
        files::with_text(&rt, b"graph.txt", |graph| {
            files::with_text(&rt, b"derivation.txt", |derivation| {
                files::print(&rt, &driver::replay(grammar, graph, derivation));
            });
        });
    });
}
