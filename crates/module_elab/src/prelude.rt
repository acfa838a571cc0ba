// The prelude.

/// The path that the prelude has among the files of a set.
pub const PRELUDE_PATH: &str = "prelude";

/// The text of the prelude: definitions that every file sees. It is read as any file is.
pub const PRELUDE: &str = "def id '^a (x: a): a = x\n\
    def const '^a '^b (x: a) (y: b): a = x\n\
    def curry '^a '^b '^c (f: (a, b) -> c) (x: a) (y: b): c = f (x, y)\n\
    def uncurry '^a '^b '^c (f: a -> b -> c) (p: (a, b)): c = f p.0 p.1\n\
    def all [n] 'a (p: a -> bool) (xs: [n]a): bool = reduce (&&) true (map p xs)\n\
    def any [n] 'a (p: a -> bool) (xs: [n]a): bool = reduce (||) false (map p xs)\n\
    def foldl [n] 'a 'b (f: a -> b -> a) (z: a) (xs: [n]b): a = loop r = z for x in xs do f r x\n\
    def foldr [n] 'a 'b (f: b -> a -> a) (z: a) (xs: [n]b): a = loop r = z for x in reverse xs do f x r\n";
