//! Formatting with the setting that keeps comments in their blocks.

use crate::tests::answers::{Asked, is_run};

/// Settings, a text, and its formatting. `laws` tests that a second run changes nothing.
pub static IN_BLOCKS: [(&str, &str, &str); 56] = [
    (
        "comments = \"block\"",
        "a:\n  b: 1\n  # c\nd: 2\n",
        "---\na:\n  b: 1\n  # c\nd: 2\n",
    ),
    (
        "comments = \"block\"",
        "a:\n    b: 1\n    # c\nd: 2\n",
        "---\na:\n  b: 1\n  # c\nd: 2\n",
    ),
    // a comment between two blocks belongs to the outer one
    (
        "comments = \"block\"",
        "a:\n    b: 1\n  # c\nd: 2\n",
        "---\na:\n  b: 1\n# c\nd: 2\n",
    ),
    // several comments, each left of the one before, or right of it
    (
        "comments = \"block\"",
        "a:\n  b:\n    c: 1\n    # 1\n  # 2\n# 3\ne: 1\n",
        "---\na:\n  b:\n    c: 1\n    # 1\n  # 2\n# 3\ne: 1\n",
    ),
    (
        "comments = \"block\"",
        "a:\n  b: 1\n# 1\n  # 2\ne: 1\n",
        "---\na:\n  b: 1\n# 1\n  # 2\ne: 1\n",
    ),
    // a comment right of everything: at the column of a child
    (
        "comments = \"block\"",
        "a:\n  # x: 1\nb: 2\n",
        "---\na:\n  # x: 1\nb: 2\n",
    ),
    (
        "comments = \"block\"",
        "a: {}\n  # x: 1\nb: 2\n",
        "---\na: {}\n  # x: 1\nb: 2\n",
    ),
    (
        "comments = \"block\"",
        "a: 1\n         # 2\nb: 2\n",
        "---\na: 1\n  # 2\nb: 2\n",
    ),
    // before the first entry of a block
    (
        "comments = \"block\"",
        "a:\n# c\n  b: 1\n",
        "---\na:\n# c\n  b: 1\n",
    ),
    (
        "comments = \"block\"",
        "a:\n   # c\n  b: 1\n",
        "---\na:\n  # c\n  b: 1\n",
    ),
    // among the items of a sequence, and after it
    (
        "comments = \"block\"",
        "a:\n  - b\n#  - c\n  - d\n",
        "---\na:\n  - b\n#  - c\n  - d\n",
    ),
    (
        "comments = \"block\"",
        "a:\n  - b\n    # c\n  - d\n",
        "---\na:\n  - b\n    # c\n  - d\n",
    ),
    (
        "comments = \"block\"",
        "a:\n- b\n# - c\nd: 1\n",
        "---\na:\n  - b\n  # - c\nd: 1\n",
    ),
    (
        "comments = \"block\"\nseq_indent = false",
        "a:\n- b\n# - c\nd: 1\n",
        "---\na:\n- b\n# - c\nd: 1\n",
    ),
    // after a block scalar a comment never moves further right
    (
        "comments = \"block\"",
        "a: |+\n  b\n\n# c\n    # d\ne: 1\n",
        "---\na: |+\n  b\n\n# c\n# d\ne: 1\n",
    ),
    (
        "comments = \"block\"",
        "a:\n  b: |\n    x\n  # c\n# d\n",
        "---\na:\n  b: |\n    x\n  # c\n# d\n",
    ),
    // after a key that has a `?`, and before the `:`
    (
        "comments = \"block\"",
        "? - a\n  # b\n: - c\n  # d\ne: 1\n",
        "---\n? - a\n  # b\n: - c\n  # d\ne: 1\n",
    ),
    // at the end of a document, and of the text
    (
        "comments = \"block\"",
        "a:\n  b: 1\n  # c\n---\nd\n  # e\n",
        "---\na:\n  b: 1\n  # c\n---\nd\n# e\n",
    ),
    (
        "comments = \"block\"\ndocument_start = \"keep\"",
        "a:\n  - b\n  # c\n",
        "a:\n  - b\n  # c\n",
    ),
    // with steps of four
    (
        "comments = \"block\"\nindent = 4",
        "a:\n  b: 1\n  # c\n    # d\ne: 1\n",
        "---\na:\n    b: 1\n    # c\n        # d\ne: 1\n",
    ),
    // a comment after other text on its line moves to the next line
    (
        "comments = \"block\"",
        "- # a\n  b: 1\n  # c\n- d\n",
        "---\n# a\n- b: 1\n  # c\n- d\n",
    ),
    (
        "comments = \"next\"",
        "a:\n  b: 1\n  # c\nd: 2\n",
        "---\na:\n  b: 1\n# c\nd: 2\n",
    ),
    // at the column of a block that begins on the next line, and beside the items of a block
    (
        "comments = \"block\"",
        "a:\n# - b\n- c\n",
        "---\na:\n  # - b\n  - c\n",
    ),
    (
        "comments = \"block\"",
        "a:\n  - b\n # c\n  - d\n",
        "---\na:\n  - b\n  # c\n  - d\n",
    ),
    // after brackets that become a block, and after a key that has ended
    (
        "comments = \"block\"",
        "a: [b, c: ]\n  # d\ne: 1\n",
        "---\na:\n  - b\n  - c:\n  # d\ne: 1\n",
    ),
    (
        "comments = \"block\"",
        "? - a\n  # b\nc: 1\n",
        "---\n? - a\n:\n  # b\nc: 1\n",
    ),
    // after properties and a key's comment, before an entry that has begun, and with an indented root
    (
        "comments = \"block\"",
        "a: &x\n  # b\n  c: 1\n  # d\n",
        "---\na: &x\n  # b\n  c: 1\n  # d\n",
    ),
    (
        "comments = \"block\"",
        "a:  # b\n  # c\n  d\n  # e\nf: 1\n",
        "---\na:  # b\n  # c\n  d\n  # e\nf: 1\n",
    ),
    ("comments = \"block\"", "-\n  # a\n  b\n", "---\n# a\n- b\n"),
    (
        "comments = \"block\"",
        "  a:\n    b: 1\n# c\n  e: 1\n",
        "---\na:\n  b: 1\n# c\ne: 1\n",
    ),
    // other kinds of line breaks, a byte order mark, a tab before a comment
    (
        "comments = \"block\"",
        "a:\r\n  b: 1\r\n  # c\r\nd: 2\r\n",
        "---\na:\n  b: 1\n  # c\nd: 2\n",
    ),
    (
        "comments = \"block\"",
        "a:\r  b: 1\r  # c\r# d\r",
        "---\na:\n  b: 1\n  # c\n# d\n",
    ),
    (
        "comments = \"block\"",
        "\u{feff}a:\n  b: 1\n  # c\nd: 2\n",
        "---\na:\n  b: 1\n  # c\nd: 2\n",
    ),
    (
        "comments = \"block\"",
        "\u{feff}  # c\na: 1\n",
        "# c\n---\na: 1\n",
    ),
    (
        "comments = \"block\"",
        "a:\n  b: 1\n...\n\u{feff}# c\n---\nd\n",
        "---\na:\n  b: 1\n# c\n---\nd\n",
    ),
    (
        "comments = \"block\"",
        "a:\n  b: 1\n\t# c\nd: 2\n",
        "---\na:\n  b: 1\n# c\nd: 2\n",
    ),
    (
        "comments = \"block\"",
        "a:\n  b: 1\n \t# c\nd: 2\n",
        "---\na:\n  b: 1\n  # c\nd: 2\n",
    ),
    // steps of eight, and sequences at the column of their keys
    (
        "comments = \"block\"\nindent = 8",
        "a:\n  - b: 1\n    # c\n  # d\ne:\n  f:\n    # g: 1\nh: 1\n",
        "---\na:\n        -       b: 1\n                # c\n        # d\ne:\n        f:\n                # g: 1\nh: 1\n",
    ),
    (
        "comments = \"block\"\nindent = 8\nseq_indent = false",
        "a:\n- b: 1\n  # c\n# d\n  # e\nf: 1\n",
        "---\na:\n-       b: 1\n        # c\n# d\n        # e\nf: 1\n",
    ),
    (
        "comments = \"block\"\nindent = 4",
        "a:\n- b: 1\n  # c\n# d\n  # e\nf: 1\n",
        "---\na:\n    -   b: 1\n        # c\n    # d\n        # e\nf: 1\n",
    ),
    // after each kind of block scalar, and after an empty one
    (
        "comments = \"block\"",
        "a:\n  - |\n    b\n  # c\n      # d\ne: 1\n",
        "---\na:\n  - |\n    b\n  # c\n  # d\ne: 1\n",
    ),
    (
        "comments = \"block\"",
        "a:\n  - |-\n    b\n  # c\n      # d\ne: 1\n",
        "---\na:\n  - |-\n    b\n  # c\n  # d\ne: 1\n",
    ),
    (
        "comments = \"block\"",
        "a:\n  - |+\n    b\n  # c\n      # d\ne: 1\n",
        "---\na:\n  - |\n    b\n  # c\n  # d\ne: 1\n",
    ),
    (
        "comments = \"block\"",
        "a:\n  - >-\n    b\n# c\n      # d\ne: 1\n",
        "---\na:\n  - >-\n    b\n# c\n  # d\ne: 1\n",
    ),
    (
        "comments = \"block\"",
        "a:\n  b: |\n  # c\nd: 1\n",
        "---\na:\n  b: \"\"\n  # c\nd: 1\n",
    ),
    (
        "comments = \"block\"",
        "a:\n  b: |\n# c\nd: 1\n",
        "---\na:\n  b: \"\"\n# c\nd: 1\n",
    ),
    // at the end of a text without a final line break, before `---`, before `...`
    (
        "comments = \"block\"",
        "a:\n  b:\n    c: 1\n    # 1\n  # 2\n# 3",
        "---\na:\n  b:\n    c: 1\n    # 1\n  # 2\n# 3\n",
    ),
    (
        "comments = \"block\"",
        "a:\n  b: 1\n  # 1\n# 2\n---\nc: 1\n",
        "---\na:\n  b: 1\n  # 1\n# 2\n---\nc: 1\n",
    ),
    (
        "comments = \"block\"",
        "a:\n  b: 1\n# 1\n  # 2\n---\nc: 1\n",
        "---\na:\n  b: 1\n# 1\n  # 2\n---\nc: 1\n",
    ),
    (
        "comments = \"block\"",
        "a:\n  b: 1\n  # c\n...\n%YAML 1.2\n---\nd\n",
        "---\na:\n  b: 1\n  # c\n...\n%YAML 1.2\n---\nd\n",
    ),
    // blank lines stay
    (
        "comments = \"block\"",
        "a:\n  b: 1\n\n\n  # c\n\nd: 1\n",
        "---\na:\n  b: 1\n\n  # c\n\nd: 1\n",
    ),
    // with the other settings
    (
        "comments = \"block\"\ndocument_start = \"keep\"\nquotes = \"single\"\ninvisible = \"escaped\"",
        "a:\n  b: \"x\\u202ey\"\n  # c\nd: 'e'\n",
        "a:\n  b: \"x\\u202Ey\"\n  # c\nd: 'e'\n",
    ),
    // brackets over several lines: a comment at the column of their first entry stays there
    (
        "comments = \"block\"",
        "a: [\n    b,\n    # c\n    d\n  ]\ne: 1\n",
        "---\na:\n  - b\n  # c\n  - d\ne: 1\n",
    ),
    (
        "comments = \"block\"",
        "a: [\n    b,\n  # c\n    d\n  ]\ne: 1\n",
        "---\na:\n  - b\n  # c\n  - d\ne: 1\n",
    ),
    // after the end of a document, the comment still belongs to the blocks that were open
    (
        "comments = \"block\"",
        "a:\n  b: 1\n...\n  # c\n---\nd\n",
        "---\na:\n  b: 1\n  # c\n---\nd\n",
    ),
    (
        "comments = \"block\"\nseq_indent = false",
        "a: [\n    b,\n    # c\n  ]\ne: 1\n",
        "---\na:\n- b\n# c\ne: 1\n",
    ),
];

/// Longer texts with their formattings, which `laws` doesn't cut: a chart, a deployment and a workflow.
pub static MANIFESTS: [(&str, &str, &str); 6] = [
    (
        "comments = \"block\"\ndocument_start = \"keep\"",
        "# Defaults of the chart.\nreplicas: 1\n\nimage:\n  name: web\n  # tag: latest\n\npodLabels: {}\n  # team: core\n\ningress:\n  enabled: false\n  annotations: {}\n    # kubernetes.io/ingress.class: nginx\n  hosts:\n    - host: example.org\n      paths:\n        - path: /\n  tls: []\n  #  - secretName: tls\n  #    hosts:\n  #      - example.org\n\nresources: {}\n  # limits:\n  #   cpu: 100m\n",
        "# Defaults of the chart.\nreplicas: 1\n\nimage:\n  name: web\n  # tag: latest\n\npodLabels: {}\n  # team: core\n\ningress:\n  enabled: false\n  annotations: {}\n    # kubernetes.io/ingress.class: nginx\n  hosts:\n    - host: example.org\n      paths:\n        - path: /\n  tls: []\n  #  - secretName: tls\n  #    hosts:\n  #      - example.org\n\nresources: {}\n  # limits:\n  #   cpu: 100m\n",
    ),
    (
        "comments = \"block\"\ndocument_start = \"keep\"\nseq_indent = false",
        "kind: Deployment\nspec:\n  template:\n    spec:\n      containers:\n      - name: web\n        image: web:1\n        # args:\n        # - --verbose\n        ports:\n        - containerPort: 80\n        # livenessProbe:\n        #   httpGet:\n        #     path: /\n      # - name: sidecar\n      #   image: sidecar:1\n      volumes:\n      - name: data\n        emptyDir: {}\n      # tolerations:\n      # - key: a\n    # end of the template\n# end\n",
        "kind: Deployment\nspec:\n  template:\n    spec:\n      containers:\n      - name: web\n        image: web:1\n        # args:\n        # - --verbose\n        ports:\n        - containerPort: 80\n        # livenessProbe:\n        #   httpGet:\n        #     path: /\n      # - name: sidecar\n      #   image: sidecar:1\n      volumes:\n      - name: data\n        emptyDir: {}\n      # tolerations:\n      # - key: a\n    # end of the template\n# end\n",
    ),
    (
        "comments = \"block\"",
        "kind: Deployment\nspec:\n  template:\n    spec:\n      containers:\n      - name: web\n        image: web:1\n        # args:\n        # - --verbose\n        ports:\n        - containerPort: 80\n        # livenessProbe:\n        #   httpGet:\n        #     path: /\n      # - name: sidecar\n      #   image: sidecar:1\n      volumes:\n      - name: data\n        emptyDir: {}\n      # tolerations:\n      # - key: a\n    # end of the template\n# end\n",
        "---\nkind: Deployment\nspec:\n  template:\n    spec:\n      containers:\n        - name: web\n          image: web:1\n          # args:\n          # - --verbose\n          ports:\n            - containerPort: 80\n            # livenessProbe:\n            #   httpGet:\n            #     path: /\n        # - name: sidecar\n        #   image: sidecar:1\n      volumes:\n        - name: data\n          emptyDir: {}\n        # tolerations:\n        # - key: a\n    # end of the template\n# end\n",
    ),
    (
        "comments = \"next\"\nseq_indent = false",
        "kind: Deployment\nspec:\n  template:\n    spec:\n      containers:\n      - name: web\n        image: web:1\n        # args:\n        # - --verbose\n        ports:\n        - containerPort: 80\n        # livenessProbe:\n        #   httpGet:\n        #     path: /\n      # - name: sidecar\n      #   image: sidecar:1\n      volumes:\n      - name: data\n        emptyDir: {}\n      # tolerations:\n      # - key: a\n    # end of the template\n# end\n",
        "---\nkind: Deployment\nspec:\n  template:\n    spec:\n      containers:\n      - name: web\n        image: web:1\n        # args:\n        # - --verbose\n        ports:\n        - containerPort: 80\n      # livenessProbe:\n      #   httpGet:\n      #     path: /\n      # - name: sidecar\n      #   image: sidecar:1\n      volumes:\n      - name: data\n        emptyDir: {}\n# tolerations:\n# - key: a\n# end of the template\n# end\n",
    ),
    (
        "comments = \"block\"\nindent = 4",
        "name: build\non:\n  push:\n    branches: [main]\n  # schedule:\n  #   - cron: \"0 0 * * *\"\njobs:\n    test:\n        runs-on: ubuntu-latest\n        # needs: lint\n        steps:\n            - uses: actions/checkout@v4\n            # - uses: actions/cache@v4\n            #   with:\n            #       path: target\n            - run: make test\n              # env:\n              #     CI: 1\n    # deploy:\n    #     runs-on: ubuntu-latest\n",
        "---\nname: build\non:\n    push:\n        branches: [main]\n    # schedule:\n    #   - cron: \"0 0 * * *\"\njobs:\n    test:\n        runs-on: ubuntu-latest\n        # needs: lint\n        steps:\n            -   uses: actions/checkout@v4\n            # - uses: actions/cache@v4\n            #   with:\n            #       path: target\n            -   run: make test\n                # env:\n                #     CI: 1\n    # deploy:\n    #     runs-on: ubuntu-latest\n",
    ),
    (
        "comments = \"block\"",
        "name: build\non:\n  push:\n    branches: [main]\n  # schedule:\n  #   - cron: \"0 0 * * *\"\njobs:\n    test:\n        runs-on: ubuntu-latest\n        # needs: lint\n        steps:\n            - uses: actions/checkout@v4\n            # - uses: actions/cache@v4\n            #   with:\n            #       path: target\n            - run: make test\n              # env:\n              #     CI: 1\n    # deploy:\n    #     runs-on: ubuntu-latest\n",
        "---\nname: build\non:\n  push:\n    branches: [main]\n  # schedule:\n  #   - cron: \"0 0 * * *\"\njobs:\n  test:\n    runs-on: ubuntu-latest\n    # needs: lint\n    steps:\n      - uses: actions/checkout@v4\n      # - uses: actions/cache@v4\n      #   with:\n      #       path: target\n      - run: make test\n        # env:\n        #     CI: 1\n  # deploy:\n  #     runs-on: ubuntu-latest\n",
    ),
];

#[test]
fn comments_keep_their_blocks(rt: HostRuntime) {
    for (settings, input, text) in &IN_BLOCKS {
        assert!(rt;
            is_run(rt.alloc(), &(Asked::Fmt, settings, input, 0, text)),
            "{input}"
        );
    }
    for (settings, input, text) in &MANIFESTS {
        assert!(rt;
            is_run(rt.alloc(), &(Asked::Fmt, settings, input, 0, text)),
            "{input}"
        );
    }
}
