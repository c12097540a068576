//! What a command line may be meant for.

use std::convert::AsStr;

/// What a word that is no command may be meant for.
fn meant_words(word: &str) -> &'static str {
    match word {
        "compile" | "cc" | "clang" => {
            "clang compiles C, and sblog pack writes the image of that (docs/HANDLERS.md)\n"
        }
        "assemble" => "sblog asm writes the image of assembler text\n",
        "disassemble" | "list" | "show" | "objdump" => {
            "sblog dis prints the text of an image, sblog explain what is known at each instruction\n"
        }
        "verify" | "validate" => "sblog check verifies an image\n",
        "start" | "exec" | "play" | "simulate" => "sblog run carries out a scenario\n",
        "render" | "picture" | "diagram" => "sblog draw writes the picture of a run\n",
        path if path.ends_with(".scenario") => "sblog run carries out a scenario\n",
        _ => "",
    }
}

/// What a refused command line may be meant for, as a line of text; or empty.
pub fn command_words<S: AsStr>(words: &[S]) -> &'static str {
    let Some((first, rest)) = words.split_first() else {
        return "";
    };
    for word in rest {
        if matches!(word.as_str(), "-o" | "--output" | "--out") {
            return "OUT comes after the file that is read, without -o\n";
        }
    }
    meant_words(first.as_str())
}
