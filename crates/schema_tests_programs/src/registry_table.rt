// Runs of the registry. A second program, which was written from the definitions in Python, answered them. ␤ stands for a line feed.

/// The words, the code, the output, the error output and the bytes of the input, with `‖` between them.
pub fn registry_lines() -> &'static str {
    "\
register‖0‖entry 0␤entry 1␤entry 0␤refused␤‖‖\0\0\0\x09entity A;\0\0\0\x09entity B;\0\0\0\rentity A ;//x\0\0\0\x08entity A
register‖1‖‖error: the last message is cut short␤‖\0\0\0\x09enti
register‖0‖‖‖
register‖0‖entry 0␤entry 0␤‖‖\0\0\0\0\0\0\0\0
register‖0‖not text␤entry 0␤refused␤entry 1␤entry 1␤entry 2␤entry 2␤‖‖\0\0\0\x01\u{ff}\0\0\0\x09entity A;\0\0\0\x1aentity A in [A]; entity A;\0\0\0\x0centity A, B;\0\0\0\x13entity B; entity A;\0\0\03namespace N { entity A; } namespace N { entity B; }\0\0\0\x1cnamespace N { entity B, A; }
register-with decimal‖0‖entry 0␤refused␤‖‖\0\0\0\x18entity A { d: decimal };\0\0\0\x17entity A { d: ipaddr };
register-with‖0‖refused␤‖‖\0\0\0\x18entity A { d: decimal };
register-with Long‖2‖‖usage: schema_registry register|register-with [NAME..]␤‖\0\0\0\x09entity A;
register x‖2‖‖usage: schema_registry register|register-with [NAME..]␤‖
‖2‖‖usage: schema_registry register|register-with [NAME..]␤‖
register‖1‖‖error: the last message is cut short␤‖\u{ff}\u{ff}\u{ff}\u{ff}
register‖1‖‖error: the last message is cut short␤‖\0\0\0
register‖1‖‖error: the last message is cut short␤‖\0\0\0\x09entity A;\0
"
}
