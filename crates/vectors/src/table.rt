// The table of vectors.
// The first five messages are NIST's: the empty one is of its validation program (CAVP), the others are of the standard's
// examples (FIPS 180-2, appendices B and C). The rest are of lengths at which the padding changes. Each digest is what sha256sum
// of GNU coreutils, OpenSSL and Perl's Digest::SHA say of the message.
use crate::vector::Vector;

pub(crate) const VECTORS: [Vector; 19] = [
    Vector {
        name: "empty",
        text: "",
        times: 1,
        digest: "e3b0c44298fc1c149afbf4c8996fb92427ae41e4649b934ca495991b7852b855",
    },
    Vector {
        name: "abc",
        text: "abc",
        times: 1,
        digest: "ba7816bf8f01cfea414140de5dae2223b00361a396177a9cb410ff61f20015ad",
    },
    Vector {
        name: "448 bits",
        text: "abcdbcdecdefdefgefghfghighijhijkijkljklmklmnlmnomnopnopq",
        times: 1,
        digest: "248d6a61d20638b8e5c026930c3e6039a33ce45964ff2167f6ecedd419db06c1",
    },
    Vector {
        name: "896 bits",
        text: "abcdefghbcdefghicdefghijdefghijkefghijklfghijklmghijklmnhijklmnoijklmnopjklmnopqklmnopqrlmnopqrsmnopqrstnopqrstu",
        times: 1,
        digest: "cf5b16a778af8380036ce59e7b0492370b249b11e8f07a51afac45037afee9d1",
    },
    Vector {
        name: "one million a",
        text: "a",
        times: 1000000,
        digest: "cdc76e5c9914fb9281a1c7e284d73e67f1809a48a497200e046d39ccc7112cd0",
    },
    Vector {
        name: "1 a",
        text: "a",
        times: 1,
        digest: "ca978112ca1bbdcafac231b39a23dc4da786eff8147c4e72b9807785afee48bb",
    },
    Vector {
        name: "55 a",
        text: "a",
        times: 55,
        digest: "9f4390f8d30c2dd92ec9f095b65e2b9ae9b0a925a5258e241c9f1e910f734318",
    },
    Vector {
        name: "56 a",
        text: "a",
        times: 56,
        digest: "b35439a4ac6f0948b6d6f9e3c6af0f5f590ce20f1bde7090ef7970686ec6738a",
    },
    Vector {
        name: "57 a",
        text: "a",
        times: 57,
        digest: "f13b2d724659eb3bf47f2dd6af1accc87b81f09f59f2b75e5c0bed6589dfe8c6",
    },
    Vector {
        name: "63 a",
        text: "a",
        times: 63,
        digest: "7d3e74a05d7db15bce4ad9ec0658ea98e3f06eeecf16b4c6fff2da457ddc2f34",
    },
    Vector {
        name: "64 a",
        text: "a",
        times: 64,
        digest: "ffe054fe7ae0cb6dc65c3af9b61d5209f439851db43d0ba5997337df154668eb",
    },
    Vector {
        name: "65 a",
        text: "a",
        times: 65,
        digest: "635361c48bb9eab14198e76ea8ab7f1a41685d6ad62aa9146d301d4f17eb0ae0",
    },
    Vector {
        name: "111 a",
        text: "a",
        times: 111,
        digest: "6374f73208854473827f6f6a3f43b1f53eaa3b82c21c1a6d69a2110b2a79baad",
    },
    Vector {
        name: "112 a",
        text: "a",
        times: 112,
        digest: "f54353008a2553262ecdc4a34749563ba0950e8b0fc8652780b0a614b99683c1",
    },
    Vector {
        name: "119 a",
        text: "a",
        times: 119,
        digest: "31eba51c313a5c08226adf18d4a359cfdfd8d2e816b13f4af952f7ea6584dcfb",
    },
    Vector {
        name: "120 a",
        text: "a",
        times: 120,
        digest: "2f3d335432c70b580af0e8e1b3674a7c020d683aa5f73aaaedfdc55af904c21c",
    },
    Vector {
        name: "127 a",
        text: "a",
        times: 127,
        digest: "c57e9278af78fa3cab38667bef4ce29d783787a2f731d4e12200270f0c32320a",
    },
    Vector {
        name: "128 a",
        text: "a",
        times: 128,
        digest: "6836cf13bac400e9105071cd6af47084dfacad4e5e302c94bfed24e013afb73e",
    },
    Vector {
        name: "1000 a",
        text: "a",
        times: 1000,
        digest: "41edece42d63e8d9bf515a9ba6932e1c20cbc9f5a5d134645adb5db1b9737ea3",
    },
];
