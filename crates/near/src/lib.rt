// Which codewords are near, the answer among them, and why the least Q finds them: definitions and theory, no code.
#![tactic(auto)]
