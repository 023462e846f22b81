// Laws of lists, bytes and whole numbers, and what a call answers: definitions and proofs that the crates share. No code.
